// All workers work until their gates are closed.
ghost use Rattle.std.specs.Prelude.{◌≡◌, ◌<◌, ◌≤◌, All, IfOk, OnErr, length};
ghost use Rattle.key_port.specs.Answers.{rules};
ghost use Rattle.flag_rules.specs.Rules.{KeepsTo};
ghost use Rattle.serve_board.specs.Boards.{IsAt};
ghost use Rattle.serve_work.specs.{Serving.{AreAsMany, GatesRan, HaveFailedOn}, Workers.{HasWorked, HaveWorked}};

use crate::attendant::Keeper;
use crate::staff::{dismiss, hire};
use dir_bytes::{Clock, Memory};
use dir_http::{Gate, Link};
use flag_rules::{Hook, RelayFacts, Ruling};
use gate_workers::{Ran, run};
use key_port::{Signer, Verifier};
use serve_board::{Board, Pass};
use serve_rounds::{Round, Rulers};
use station_input::StationFacts;
use std::alloc::Global;
use std::sync::Wait;
use std::thread::Threads;

/// A worker for each gate works until its gate is closed or fails. What they worked with is given back in its order.
///
/// # Errors
/// `Memory` is want of memory, and then no gate was asked.
pub(crate) fn work_gates<
    'a,
    'b,
    'c,
    H: Threads + Wait + Sync,
    W: Rulers + Sync,
    F: Fn(RelayFacts) -> Ruling + Sync,
    C: Clock + Send + Drop,
    V: Verifier + Send + Sync + Drop,
    N: Signer + Send,
    G: Gate + Send + Drop,
    L: Link + Send,
>(
    rt: &'a H,
    alloc: Global,
    board: &'a Board<V>,
    hook: &'a Hook<W, F>,
    address: &[u8],
    station: &'a StationFacts,
    signer: &'b mut N,
    link: &'c mut L,
    gates: &mut Vec<G>,
    clocks: &mut Vec<C>,
    verifiers: &mut Vec<V>,
    passes: &mut Vec<Pass<V>>,
) -> Result<Ran, Memory>
    requires at { All (IsAt board.now) passes.old.items }
    requires count { AreAsMany gates.old.items clocks.old.items verifiers.old.items passes.old.items }
    requires hook { KeepsTo W.allows F.pre F.post hook.now.rules hook.now.ask }
    ensures ran { IfOk result (λ ran. GatesRan G.faults G.closed gates.old.items gates.new.items ran) }
    ensures at { IfOk result (λ ran. All (IsAt board.now) passes.new.items) }
    ensures count { IfOk result (λ ran. (length gates.new.items ≡ length gates.old.items)
        × (length clocks.new.items ≡ length clocks.old.items)
        × (length verifiers.new.items ≡ length verifiers.old.items)
        × (length passes.new.items ≡ length passes.old.items)) }
    ensures worked { IfOk result (λ ran. HaveWorked (HasWorked (rules V.may_accept V.may_refuse) N.may_give N.steps
        (W.allows hook.now.rules) station.now C.last board.now) passes.old.items passes.new.items) }
    ensures err { OnErr result ((gates.new.items ≡ gates.old.items) × (clocks.new.items ≡ clocks.old.items)
        × (verifiers.new.items ≡ verifiers.old.items)) }
    ensures verifiers { IfOk result (λ ran. HaveFailedOn V.faults verifiers.old.items verifiers.new.items) }
{
    let room = Vec::with_capacity(alloc, gates.len())?;
    let keeper = Keeper {
        round: Round::new(),
        signer,
        link,
    };
    let mut workers = hire(
        rt, alloc, board, hook, station, keeper, gates, clocks, verifiers, passes, room,
    );
    let ran = run(rt, address, &mut workers);
    dismiss(workers, gates, clocks, verifiers, passes);
    Ok(ran)
}
