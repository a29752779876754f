// Workers are made of what they work with, and give it back.
ghost use Rattle.std.specs.Prelude.{◌≡◌, ◌≤◌, ◌<◌, ◌∷◌, [], All, length, map, vec_capacity};

use crate::attendant::{Attendant, Keeper};
use flag_rules::Hook;
use gate_workers::{End, Worker};
use key_port::Verifier;
use serve_board::{Board, Pass};
use station_input::StationFacts;
use std::alloc::Global;

/// The first element leaves.
fn first<T>(all: &mut Vec<T>) -> T
    requires { 0 < length all.old.items }
    ensures items { all.old.items ≡ result ∷ all.new.items }
    ensures capacity { vec_capacity all.new ≡ vec_capacity all.old }
{
    all.remove(0)
}

/// A worker for each gate, clock, verifier and pass, in their order, without memory. The first is the keeper.
pub(crate) fn hire<'a, 'b, 'c, H, W, F, C, V: Verifier, N, L, G>(
    rt: &'a H,
    alloc: Global,
    board: &'a Board<V>,
    hook: &'a Hook<W, F>,
    station: &'a StationFacts,
    keeper: Keeper<'b, 'c, N, L>,
    gates: &mut Vec<G>,
    clocks: &mut Vec<C>,
    verifiers: &mut Vec<V>,
    passes: &mut Vec<Pass<V>>,
    room: Vec<Worker<G, Attendant<'a, 'b, 'c, H, W, F, C, V, N, L>>>,
) -> Vec<Worker<G, Attendant<'a, 'b, 'c, H, W, F, C, V, N, L>>>
    requires clocks { length clocks.old.items ≡ length gates.old.items }
    requires verifiers { length verifiers.old.items ≡ length gates.old.items }
    requires passes { length passes.old.items ≡ length gates.old.items }
    requires empty { room.items ≡ [] }
    requires room { length gates.old.items ≤ vec_capacity room }
    ensures gates { map (λ w. w.gate) result.items ≡ gates.old.items }
    ensures passes { map (λ w. w.clerk.pass) result.items ≡ passes.old.items }
    ensures verifiers { map (λ w. w.clerk.verifier) result.items ≡ verifiers.old.items }
    ensures hired { All (λ w. (w.end ≡ End.Working) × (w.clerk.board.now ≡ board.now) × (w.clerk.hook.now ≡ hook.now)
        × (w.clerk.station.now ≡ station.now)) result.items }
    ensures empty { (gates.new.items ≡ []) × (clocks.new.items ≡ []) × (verifiers.new.items ≡ [])
        × (passes.new.items ≡ []) }
    ensures kept { (vec_capacity gates.new ≡ vec_capacity gates.old)
        × (vec_capacity clocks.new ≡ vec_capacity clocks.old)
        × (vec_capacity verifiers.new ≡ vec_capacity verifiers.old)
        × (vec_capacity passes.new ≡ vec_capacity passes.old) }
{
    let mut keeper = Some(keeper);
    let mut workers = room;
    'gates: while gates.len() > 0 {
        let gate = first(gates);
        let clock = first(clocks);
        let verifier = first(verifiers);
        let pass = first(passes);
        let clerk = Attendant {
            rt,
            alloc,
            board,
            hook,
            station,
            pass,
            clock,
            verifier,
            keeper: keeper.take(),
        };
        workers.push_reserved(Worker::new(gate, clerk));
    }
    workers
}

/// What the workers had goes back, in their order, without memory.
pub(crate) fn dismiss<'a, 'b, 'c, H, W, F, C: Drop, V: Verifier + Drop, N, L, G: Drop>(
    workers: Vec<Worker<G, Attendant<'a, 'b, 'c, H, W, F, C, V, N, L>>>,
    gates: &mut Vec<G>,
    clocks: &mut Vec<C>,
    verifiers: &mut Vec<V>,
    passes: &mut Vec<Pass<V>>,
)
    requires empty { (gates.old.items ≡ []) × (clocks.old.items ≡ []) × (verifiers.old.items ≡ [])
        × (passes.old.items ≡ []) }
    requires room { (length workers.items ≤ vec_capacity gates.old) × (length workers.items ≤ vec_capacity clocks.old)
        × (length workers.items ≤ vec_capacity verifiers.old) × (length workers.items ≤ vec_capacity passes.old) }
    ensures gates { gates.new.items ≡ map (λ w. w.gate) workers.entry.items }
    ensures clocks { length clocks.new.items ≡ length workers.entry.items }
    ensures passes { passes.new.items ≡ map (λ w. w.clerk.pass) workers.entry.items }
    ensures verifiers { verifiers.new.items ≡ map (λ w. w.clerk.verifier) workers.entry.items }
{
    for worker in workers {
        let Worker {
            gate,
            clerk,
            end: _,
        } = worker;
        let Attendant {
            rt: _,
            alloc: _,
            board: _,
            hook: _,
            station: _,
            pass,
            clock,
            verifier,
            keeper: _,
        } = clerk;
        gates.push_reserved(gate);
        clocks.push_reserved(clock);
        verifiers.push_reserved(verifier);
        passes.push_reserved(pass);
    }
}
