// Serving, from the opening of all gates to the report of what was left.
ghost use Rattle.std.specs.Prelude.{◌≡◌, ◌<◌, ◌≤◌, All, length};
ghost use Rattle.key_port.specs.Answers.{rules};
ghost use Rattle.flag_rules.specs.Rules.{KeepsTo};
ghost use Rattle.serve_board.specs.Boards.{IsAt};
ghost use Rattle.serve_work.specs.{Serving.{AreAsMany, HaveFailedOn, Serves}, Workers.HasWorked};

use crate::outside::Outside;
use crate::reporting::report;
use crate::working::work_gates;
use dir_bytes::{Clock, Sink};
use dir_http::{Gate, Link};
use flag_rules::{Hook, RelayFacts, Ruling};
use gate_workers::Ran;
use key_port::{Signer, Verifier};
use serve_board::{Board, Pass, Rooms};
use serve_rounds::Rulers;
use station_input::StationFacts;
use std::alloc::Global;
use std::sync::Wait;
use std::thread::Threads;

/// How serving ended.
#[derive(Clone, Copy, Debug, PartialEq, Eq)]
pub enum Served {
    /// All gates were closed, and the report was written whole.
    Whole,
    /// There was no memory.
    NoMemory,
    /// The sink failed.
    WriteFault,
    /// A gate failed.
    GateFault,
}

/// The workers serve until their gates are closed, each with a pass of the board and a gate, a clock and a verifier of
/// its own, and the report on the state that they left is written. One of them does the duties of the authority
/// besides. Where a gate failed while it was asked, the others go on until theirs are closed, and the report is written
/// all the same; where one cannot listen, nothing is served or written.
pub fn serve<
    H: Threads + Wait + Sync,
    W: Rulers + Sync,
    F: Fn(RelayFacts) -> Ruling + Sync,
    S: Drop,
    K: Sink + Drop,
    E: Drop,
    C: Clock + Send + Drop,
    V: Verifier + Send + Sync + Drop,
    N: Signer + Send + Drop,
    G: Gate + Send + Drop,
    L: Link + Send + Drop,
>(
    rt: &H,
    alloc: Global,
    board: Board<V>,
    passes: Vec<Pass<V>>,
    station: &StationFacts,
    hook: &Hook<W, F>,
    address: &[u8],
    outside: &mut Outside<S, K, E, C, V, N, G, L>,
) -> Served
    requires at { All (IsAt board) passes.items }
    requires all { (board.state.passes ≤ length passes.items) × (board.pool.passes ≤ length passes.items) }
    requires count { AreAsMany outside.old.gates.items outside.old.clocks.items outside.old.verifiers.items
        passes.items }
    requires hook { KeepsTo W.allows F.pre F.post hook.now.rules hook.now.ask }
    ensures serves { Serves G.faults G.closed outside.old.gates.items outside.new.gates.items
        (rules V.may_accept V.may_refuse) board (HasWorked (rules V.may_accept V.may_refuse) N.may_give N.steps
        (W.allows hook.now.rules) station.now C.last board) passes.items
        (K.written outside.old.sink) (K.written outside.new.sink) (K.faults outside.old.sink)
        (K.faults outside.new.sink) result }
    ensures count { (length outside.new.gates.items ≡ length outside.old.gates.items)
        × (length outside.new.clocks.items ≡ length outside.old.clocks.items)
        × (length outside.new.verifiers.items ≡ length outside.old.verifiers.items) }
    ensures verifiers { HaveFailedOn V.faults outside.old.verifiers.items outside.new.verifiers.items }
    ensures untouched { (outside.new.source ≡ outside.old.source) × (outside.new.errors ≡ outside.old.errors) }
{
    let mut passes = passes;
    let Ok(rooms) = Rooms::new(alloc, passes.len()) else {
        return Served::NoMemory;
    };
    let Ok(ran) = work_gates(
        rt,
        alloc,
        &board,
        hook,
        address,
        station,
        &mut outside.signer,
        &mut outside.link,
        &mut outside.gates,
        &mut outside.clocks,
        &mut outside.verifiers,
        &mut passes,
    ) else {
        return Served::NoMemory;
    };
    if let Ran::Deaf = ran {
        return Served::GateFault;
    }
    let (state, _) = board.close(passes, rooms);
    let told = report(alloc, &state, &mut outside.sink);
    match ran {
        Ran::Closed => told,
        Ran::Failed | Ran::Deaf => Served::GateFault,
    }
}
