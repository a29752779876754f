// Reading a station input.
ghost use Rattle.std.specs.Prelude.{◌<◌, ◌^◌, length};
ghost use Rattle.station_input.specs.Reading.{ReadsStation};

use crate::facts::{StationFacts, facts_of};
use crate::frame::StationFrame;
use crate::kept::nothing_kept;
use count_terms::Newest;
use dirdoc_grammar::Items;
use frame_reader::read_document;
use frame_terms::ReadRefusal;
use std::alloc::Global;

/// How many bytes a station input may have: as many as the input of a command.
const MAX_STATION: u64 = 268_435_456;

/// What the bytes give a station that knows this newest method, behind blank lines if there are some, and how many bytes that are:
/// it ends with its `end-station`, and the descriptors of relays begin behind it.
///
/// # Errors
/// `Frame` is the first fault: what is wrong and at which byte. `Memory` is want of memory.
pub fn read_station(
    alloc: Global,
    newest: Newest,
    bytes: &[u8],
) -> Result<(StationFacts, usize), ReadRefusal>
    requires { length bytes.now < 2 ^ 62 }
    ensures { ReadsStation newest bytes.now result }
{
    let mut items = Items::new(bytes, MAX_STATION);
    let mut kept = nothing_kept(alloc);
    let length = bytes.len() as u64;
    let used = read_document(alloc, StationFrame, &mut items, length, &mut kept)?;
    match facts_of(alloc, newest, bytes, kept) {
        Ok(facts) => Ok((facts, used as usize)),
        Err(_) => Err(ReadRefusal::Memory),
    }
}
