// The bandwidth file in front of an input.
ghost use Rattle.std.specs.Prelude.{◌≡◌};
ghost use Rattle.station_commands.specs.Private as its;

use crate::file_refusal::BandwidthRefusal;
use bandwidth_file::{BandFault, BandRefusal, Front, read_front};
use daemon_words::Stop;
use std::alloc::Global;

/// The bandwidth file that an input begins with.
///
/// # Errors
/// `Refused` is its first fault. `Memory` is want of memory.
fn front_in(alloc: Global, bytes: &[u8]) -> Result<Front, Stop<BandFault>>
    ensures { its.GivesFront bytes.now result }
{
    match read_front(alloc, bytes) {
        Ok(front) => Ok(front),
        Err(BandRefusal::Fault { place, reason }) => Err(Stop::Refused(BandFault {
            place,
            reason,
        })),
        Err(BandRefusal::Memory) => Err(Stop::Memory),
    }
}

/// The same, where it is not too old to be voted on at the moment `now`.
///
/// # Errors
/// `Refused` is the file's first fault, or else that it is too old. `Memory` is want of memory.
pub fn file_of(alloc: Global, bytes: &[u8], now: u64) -> Result<Front, Stop<BandwidthRefusal>>
    ensures { its.GivesFile bytes.now now result }
{
    let front = match front_in(alloc, bytes) {
        Ok(front) => front,
        Err(Stop::Refused(fault)) => return Err(Stop::Refused(BandwidthRefusal::Fault(fault))),
        Err(Stop::Memory) => return Err(Stop::Memory),
    };
    if front.file.is_old(now) {
        let timestamp = front.file.timestamp;
        return Err(Stop::Refused(BandwidthRefusal::Old { timestamp }));
    }
    Ok(front)
}
