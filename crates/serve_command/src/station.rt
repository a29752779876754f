// What the station of an input is given.
ghost use Rattle.std.specs.Prelude.{◌≢◌, ◌<◌, ◌^◌, Err, IfErr, IfOk, length};
ghost use Rattle.serve_command.specs.{Private.{IsReadIn, StopsFor}, Starting.IsFaultyIn};

use crate::refusal::ServeRefusal;
use crate::told::{of_fault, of_file};
use bytes::Bytes;
use count_terms::Newest;
use daemon_words::{Measures, Stop};
use station_commands::{file_of, station_behind, station_of};
use station_input::StationFacts;
use std::alloc::Global;

/// What a station is given behind the bandwidth file with which an input begins, and the place behind it.
fn behind_file(
    alloc: Global,
    newest: Newest,
    now: u64,
    bytes: &Bytes,
) -> Result<(StationFacts, usize), Stop<ServeRefusal>>
    requires { length bytes.now < 2 ^ 61 }
    ensures read { IfOk result (λ read. IsReadIn Measures.File newest now bytes.now read.0 read.1) }
    ensures stops { IfErr result (λ why. StopsFor (IsFaultyIn Measures.File newest now bytes.now) why) }
    ensures unasked { result ≢ Err (Stop.Refused ServeRefusal.Verifier) }
{
    let front = match file_of(alloc, bytes, now) {
        Ok(front) => front,
        Err(why) => return Err(of_file(why)),
    };
    match station_behind(alloc, newest, bytes, &front) {
        Ok((station, used)) => Ok((station, used)),
        Err(why) => Err(of_fault(why)),
    }
}

/// What the station of an input is given at the moment `now`, by where its bandwidths come from and the newest method that it
/// knows, and the place behind it.
///
/// # Errors
/// `Refused` by the first that applies: where a bandwidth file has to stand in front, its first fault, or that it is
/// too old; and then the first fault of what the station is given. `Memory` is want of memory.
pub(crate) fn station_in(
    alloc: Global,
    measures: Measures,
    newest: Newest,
    now: u64,
    bytes: &Bytes,
) -> Result<(StationFacts, usize), Stop<ServeRefusal>>
    requires { length bytes.now < 2 ^ 61 }
    ensures read { IfOk result (λ read. IsReadIn measures newest now bytes.now read.0 read.1) }
    ensures stops { IfErr result (λ why. StopsFor (IsFaultyIn measures newest now bytes.now) why) }
    ensures unasked { result ≢ Err (Stop.Refused ServeRefusal.Verifier) }
{
    match measures {
        Measures::Station => match station_of(alloc, newest, bytes) {
            Ok((station, used)) => Ok((station, used)),
            Err(why) => Err(of_fault(why)),
        },
        Measures::File => behind_file(alloc, newest, now, bytes),
    }
}
