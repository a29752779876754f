// The command that serves, over what stands outside.
ghost use Rattle.std.specs.Prelude.{◌≡◌};
ghost use Rattle.serve_command.specs.Serving.{HasWorkers};
ghost use Rattle.authority_daemon.specs.{Commands.may, Moments.telling_of, Served.IsServed};
ghost use Rattle.authority_daemon.specs.Served as its;

use crate::outside::Stands;
use crate::texts::INPUT_LIMIT;
use bytes::Bytes;
use daemon_words::{Serve, Stop};
use dir_bytes::{Clock, ReadAllFault, Sink, Source, read_all};
use dir_http::{Gate, Link};
use exit_status::{Refusal, Status, by_serve};
use key_port::{Signer, Verifier};
use serve_command::{Outside, Served, serve_station};
use std::alloc::Global;
use std::sync::Wait;
use std::thread::Threads;

/// How a run ends in which an authority served.
fn status_of(served: Served) -> Status
    ensures { result ≡ its.status_of served }
{
    match served {
        Served::Whole => Status::Done,
        Served::NoMemory => Status::Memory,
        Served::WriteFault => Status::WriteFault,
        Served::GateFault => Status::Refused(Refusal::Gate),
    }
}

/// Serves as the authority that the input speaks of until the gates are closed, and writes the report on it.
pub(crate) fn run_serving<
    H: Threads + Wait + Sync,
    S: Source + Drop,
    K: Sink + Drop,
    E: Sink + Drop,
    C: Clock + Send + Drop,
    V: Verifier + Send + Sync + Drop,
    N: Signer + Send + Drop,
    G: Gate + Send + Drop,
    L: Link + Send + Drop,
>(rt: &H, alloc: Global, wanted: &Serve, outside: &mut Outside<S, K, E, C, V, N, G, L>) -> Status
    requires workers { HasWorkers outside.old }
    ensures run { let at = ⟦<Outside<S, K, E, C, V, N, G, L> as Stands<S, C, V, N, G, L>>⟧.at in
        IsServed (may V.may_accept V.may_refuse N.may_give N.steps) (telling_of C.last C.asks G.faults G.closed) wanted.now
        (at outside.old) (at outside.new) result }
    ensures quiet { outside.new.errors ≡ outside.old.errors }
{
    let bytes = match read_all(alloc, &mut outside.source, INPUT_LIMIT) {
        Ok(bytes) => bytes,
        Err(ReadAllFault::TooLong) => return Status::TooLong,
        Err(ReadAllFault::ReadFault) => return Status::ReadFault,
        Err(ReadAllFault::Memory) => return Status::Memory,
    };
    let Ok(input) = Bytes::from_vec(bytes) else {
        return Status::Memory;
    };
    match serve_station(rt, alloc, wanted, &input, outside) {
        Ok(served) => status_of(served),
        Err(Stop::Memory) => Status::Memory,
        Err(Stop::Refused(why)) => Status::Refused(by_serve(why)),
    }
}
