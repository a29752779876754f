// How a refusal of a call is told as the command's.
ghost use Rattle.std.specs.Prelude.{◌≡◌};
ghost use Rattle.station_commands.specs.FileTold as told;

use crate::file_refusal::{BandwidthRefusal, FileVoteRefusal};
use crate::refusal::{MakeVoteRefusal, StationRefusal};
use daemon_words::Stop;
use frame_terms::FrameFault;

/// That the input gives no bandwidth file that counts.
pub(crate) fn of_file(stop: Stop<BandwidthRefusal>) -> Stop<FileVoteRefusal>
    ensures { result ≡ told.of_file stop }
{
    match stop {
        Stop::Refused(why) => Stop::Refused(FileVoteRefusal::File(why)),
        Stop::Memory => Stop::Memory,
    }
}

/// That no vote is made of what stands behind the file.
pub(crate) fn of_vote(stop: Stop<MakeVoteRefusal>) -> Stop<FileVoteRefusal>
    ensures { result ≡ told.of_vote stop }
{
    match stop {
        Stop::Refused(why) => Stop::Refused(FileVoteRefusal::Vote(why)),
        Stop::Memory => Stop::Memory,
    }
}

/// That what stands behind the file is not what a station is given.
pub(crate) fn of_fault(stop: Stop<FrameFault>) -> Stop<FileVoteRefusal>
    ensures { result ≡ told.of_fault stop }
{
    match stop {
        Stop::Refused(fault) => {
            let why = MakeVoteRefusal::Station(StationRefusal::Fault(fault));
            Stop::Refused(FileVoteRefusal::Vote(why))
        }
        Stop::Memory => Stop::Memory,
    }
}
