// The command that serves as an authority.
ghost use Rattle.std.specs.Prelude.{◌≡◌, ◌≤◌, ◌<◌, ◌^◌, All, IfErr, length};
ghost use Rattle.key_port.specs.Answers.{rules};
ghost use Rattle.flag_rules.specs.Rules.{list_allows, ruling_for};
ghost use Rattle.serve_board.specs.Boards.{IsAt};
ghost use Rattle.serve_work.specs.{Serving.{AreAsMany, Serves}, Workers.HasWorked};
ghost use Rattle.serve_command.specs.Serving.{AsksClock, HasWorkers, ServeAnswers, ServesNone};

use crate::ready::{Ready, prepare};
use crate::refusal::ServeRefusal;
use bytes::Bytes;
use daemon_words::{Serve, Stop};
use dir_bytes::{Clock, Sink};
use dir_http::{Gate, Link};
use flag_rules::{Hook, RelayFacts, Ruling};
use key_port::{Signer, Verifier};
use serve_work::{Outside, Served, serve};
use std::alloc::Global;
use std::sync::Wait;
use std::thread::Threads;

/// Serves with what is ready, under the rules of the station's operator.
fn serve_ready<
    H: Threads + Wait + Sync,
    S: Drop,
    K: Sink + Drop,
    E: Drop,
    C: Clock + Send + Drop,
    V: Verifier + Send + Sync + Drop,
    N: Signer + Send + Drop,
    G: Gate + Send + Drop,
    L: Link + Send + Drop,
>(
    rt: &H,
    alloc: Global,
    ready: Ready<V>,
    address: &[u8],
    outside: &mut Outside<S, K, E, C, V, N, G, L>,
) -> Served
    requires at { All (IsAt ready.board) ready.passes.items }
    requires all { (ready.board.state.passes ≤ length ready.passes.items)
        × (ready.board.pool.passes ≤ length ready.passes.items) }
    requires count { AreAsMany outside.old.gates.items outside.old.clocks.items outside.old.verifiers.items
        ready.passes.items }
    ensures serves { Serves G.faults G.closed outside.old.gates.items outside.new.gates.items
        (rules V.may_accept V.may_refuse) ready.board (HasWorked (rules V.may_accept V.may_refuse) N.may_give N.steps
        (list_allows ready.operator) ready.station C.last ready.board) ready.passes.items
        (K.written outside.old.sink) (K.written outside.new.sink) (K.faults outside.old.sink)
        (K.faults outside.new.sink) result }
    ensures count { (length outside.new.gates.items ≡ length outside.old.gates.items)
        × (length outside.new.clocks.items ≡ length outside.old.clocks.items)
        × (length outside.new.verifiers.items ≡ length outside.old.verifiers.items) }
    ensures untouched { (outside.new.source ≡ outside.old.source) × (outside.new.errors ≡ outside.old.errors) }
{
    let Ready {
        station,
        operator,
        board,
        passes,
    } = ready;
    let by_rules = |facts: RelayFacts| -> Ruling
        ensures { result ≡ ruling_for operator facts.identity }
    { operator.ruling(&facts) };
    let hook = Hook::new(&operator, by_rules);
    serve(rt, alloc, board, passes, &station, &hook, address, outside)
}

/// Serves as the authority that starts at the moment `now`.
///
/// # Errors
/// Those of `serve_station`.
fn serve_at<
    H: Threads + Wait + Sync,
    S: Drop,
    K: Sink + Drop,
    E: Drop,
    C: Clock + Send + Drop,
    V: Verifier + Send + Sync + Drop,
    N: Signer + Send + Drop,
    G: Gate + Send + Drop,
    L: Link + Send + Drop,
>(
    rt: &H,
    alloc: Global,
    wanted: &Serve,
    bytes: &Bytes,
    now: u64,
    outside: &mut Outside<S, K, E, C, V, N, G, L>,
) -> Result<Served, Stop<ServeRefusal>>
    requires short { length bytes.now < 2 ^ 61 }
    requires workers { HasWorkers outside.old }
    ensures answer { ServeAnswers (rules V.may_accept V.may_refuse) N.may_give N.steps C.last G.faults G.closed
        wanted.now.bandwidths wanted.now.newest now bytes.now outside.old.gates.items outside.new.gates.items (K.written outside.old.sink)
        (K.written outside.new.sink) (K.faults outside.old.sink) (K.faults outside.new.sink) result }
    ensures refused { IfErr result (λ why. ServesNone V.faults outside.old outside.new why) }
    ensures clocks { IfErr result (λ why. outside.new.clocks.items ≡ outside.old.clocks.items) }
    ensures untouched { (outside.new.source ≡ outside.old.source) × (outside.new.errors ≡ outside.old.errors) }
    ensures count { (length outside.new.gates.items ≡ length outside.old.gates.items)
        × (length outside.new.clocks.items ≡ length outside.old.clocks.items)
        × (length outside.new.verifiers.items ≡ length outside.old.verifiers.items) }
{
    let workers = outside.gates.len() as u32;
    let ready = prepare(
        alloc,
        wanted.bandwidths,
        wanted.newest,
        bytes,
        now,
        workers,
        &mut outside.verifiers[0],
    )?;
    Ok(serve_ready(rt, alloc, ready, wanted.address.as_bytes(), outside))
}

/// Serves as the authority of the station that the input speaks of until all gates are closed, and writes the report on
/// what its workers left. The first clock gives the moment at which the authority starts.
///
/// # Errors
/// An error comes before a gate is asked. `Refused` by the first that applies: where a bandwidth file has to stand in
/// front, its first fault, or that it is too old; the fault of what the station is given; its roster, its schedule,
/// its own authority; the first fault of a descriptor, or the first that does not hold, in their order; a full pool;
/// no period any more; the own certificate. `Verifier` stands where the descriptor or the certificate stands of which
/// the first verifier was asked. `Memory` is want of memory.
pub fn serve_station<
    H: Threads + Wait + Sync,
    S: Drop,
    K: Sink + Drop,
    E: Drop,
    C: Clock + Send + Drop,
    V: Verifier + Send + Sync + Drop,
    N: Signer + Send + Drop,
    G: Gate + Send + Drop,
    L: Link + Send + Drop,
>(
    rt: &H,
    alloc: Global,
    wanted: &Serve,
    bytes: &Bytes,
    outside: &mut Outside<S, K, E, C, V, N, G, L>,
) -> Result<Served, Stop<ServeRefusal>>
    requires short { length bytes.now < 2 ^ 61 }
    requires workers { HasWorkers outside.old }
    ensures answer { AsksClock C.asks C.last outside.old.clocks.items outside.new.clocks.items
        (λ now. ServeAnswers (rules V.may_accept V.may_refuse) N.may_give N.steps C.last G.faults G.closed
        wanted.now.bandwidths wanted.now.newest now bytes.now
        outside.old.gates.items outside.new.gates.items (K.written outside.old.sink) (K.written outside.new.sink)
        (K.faults outside.old.sink) (K.faults outside.new.sink)) result }
    ensures refused { IfErr result (λ why. ServesNone V.faults outside.old outside.new why) }
    ensures untouched { (outside.new.source ≡ outside.old.source) × (outside.new.errors ≡ outside.old.errors) }
    ensures count { (length outside.new.gates.items ≡ length outside.old.gates.items)
        × (length outside.new.clocks.items ≡ length outside.old.clocks.items)
        × (length outside.new.verifiers.items ≡ length outside.old.verifiers.items) }
{
    let now = outside.clocks[0].now();
    serve_at(rt, alloc, wanted, bytes, now, outside)
}
