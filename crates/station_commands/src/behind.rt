// What a station is given behind a bandwidth file.
ghost use Rattle.std.specs.Prelude.{◌≡◌, ◌≤◌, ◌<◌, ◌^◌, IfOk, length};
ghost use Rattle.blank_lines.specs.Behind.{FitsBehind};
ghost use Rattle.station_commands.specs.Private as its;
ghost use Rattle.station_commands.specs.WithFile.{told_station};

use crate::descriptors::from_place;
use crate::measured_told::told_by;
use bandwidth_file::{BandFile, Front};
use count_terms::Newest;
use daemon_words::Stop;
use dir_bytes::{Memory, Seq};
use frame_terms::{FrameFault, ReadRefusal};
use station_input::{StationFacts, read_station};
use std::alloc::Global;

/// What a station is given, where a file tells the bandwidths of relays.
fn told(alloc: Global, mut station: StationFacts, file: &BandFile) -> Result<StationFacts, Memory>
    ensures { IfOk result (λ told. told ≡ told_station file.now station) }
{
    let measured = told_by(alloc, station.measured.as_slice(), &file.relays)?;
    station.measured = Seq::new(measured);
    Ok(station)
}

/// That what stands in the input from a place on is not what a station is given.
fn fault_behind(start: usize, refusal: ReadRefusal) -> Stop<FrameFault>
    requires { FitsBehind start refusal }
    ensures { result ≡ its.fault_behind start refusal }
{
    match from_place(start, refusal) {
        ReadRefusal::Frame(fault) => Stop::Refused(fault),
        ReadRefusal::Memory => Stop::Memory,
    }
}

/// What a station that knows this newest method is given behind a bandwidth file, which tells the bandwidths of its relays, and the
/// place behind it.
///
/// # Errors
/// `Refused` is the first fault of what stands there, with its place in the input. `Memory` is want of memory.
pub fn station_behind(
    alloc: Global,
    newest: Newest,
    bytes: &[u8],
    front: &Front,
) -> Result<(StationFacts, usize), Stop<FrameFault>>
    requires short { length bytes.now < 2 ^ 61 }
    requires within { front.now.used ≤ length bytes.now }
    ensures { its.GivesStationBehind newest front.now.file front.now.used bytes.now result }
{
    match read_station(alloc, newest, &bytes[front.used..]) {
        Ok((station, used)) => Ok((told(alloc, station, &front.file)?, front.used + used)),
        Err(refusal) => Err(fault_behind(front.used, refusal)),
    }
}
