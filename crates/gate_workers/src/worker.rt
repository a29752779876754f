// One worker: a gate, and what is done with what it gives.
ghost use Rattle.std.specs.Prelude.{◌≡◌, ◌≤◌};
ghost use Rattle.gate_workers.specs.Workers.{Ends, Listens};

use crate::clerk::Clerk;
use dir_http::{Gate, GateAnswer, ListenAnswer};
use std::sync::Wait;

/// How a worker ended.
#[derive(Clone, Copy, Debug, PartialEq, Eq)]
pub enum End {
    /// It has not ended.
    Working,
    /// Its gate gives no more connections.
    Closed,
    /// Its gate failed.
    Fault,
}

/// A worker: a gate, and what is done with what it gives.
#[derive(Drop)]
pub struct Worker<G, K> {
    pub gate: G,
    pub clerk: K,
    /// How it ended, if it did.
    pub end: End,
}

impl<G, K> Worker<G, K> {
    /// A worker that has not begun.
    pub fn new(gate: G, clerk: K) -> Worker<G, K>
        ensures gate { result.gate ≡ gate }
        ensures clerk { result.clerk ≡ clerk }
        ensures end { result.end ≡ End.Working }
    {
        Worker {
            gate,
            clerk,
            end: End::Working,
        }
    }
}

/// The worker's gate begins to listen at an address.
pub(crate) fn listen<G: Gate, K>(address: &[u8], worker: &mut Worker<G, K>)
    requires { worker.old.end ≡ End.Working }
    ensures end { Listens (G.faults worker.old.gate) (G.faults worker.new.gate) worker.new.end }
    ensures faults { G.faults worker.old.gate ≤ G.faults worker.new.gate }
    ensures clerk { worker.new.clerk ≡ worker.old.clerk }
{
    match worker.gate.listen(address) {
        ListenAnswer::Listening => {}
        ListenAnswer::Fault => worker.end = End::Fault,
    }
}

/// Serves the connections of the worker's gate until it is closed or fails. While none comes the clerk rests.
pub(crate) fn work<H: Wait, G: Gate, K: Clerk<G::In, G::Out>>(rt: &H, worker: &mut Worker<G, K>)
    requires { K.may_work worker.old.clerk }
    ensures may_work { K.may_work worker.new.clerk }
    ensures comes { (before : K) → K.comes_to before worker.old.clerk → K.comes_to before worker.new.clerk }
    ensures end { Ends (G.faults worker.old.gate) (G.faults worker.new.gate) (G.closed worker.new.gate) worker.new.end }
    ensures faults { G.faults worker.old.gate ≤ G.faults worker.new.gate }
{
    let end = serve_gate(rt, &mut worker.gate, &mut worker.clerk);
    worker.end = end;
}

/// Serves the connections of a gate that listens until it is closed or fails, and says which. While none comes the clerk rests.
pub fn serve_gate<H: Wait, G: Gate, K: Clerk<G::In, G::Out>>(
    rt: &H,
    gate: &mut G,
    clerk: &mut K,
) -> End
    requires { K.may_work clerk.old }
    ensures may_work { K.may_work clerk.new }
    ensures comes { (before : K) → K.comes_to before clerk.old → K.comes_to before clerk.new }
    ensures end { Ends (G.faults gate.old) (G.faults gate.new) (G.closed gate.new) result }
    ensures faults { G.faults gate.old ≤ G.faults gate.new }
{
    for _ in rt.forever() {
        match gate.next() {
            GateAnswer::Connection(mut input, mut output) => clerk.serve(&mut input, &mut output),
            GateAnswer::Idle => clerk.rest(),
            GateAnswer::Closed => return End::Closed,
            GateAnswer::Fault => return End::Fault,
        }
    }
    unreachable!()
}
