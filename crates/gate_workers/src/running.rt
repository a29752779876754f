// All workers, side by side.
ghost use Rattle.std.specs.Prelude.{◌≡◌, ◌≢◌, ◌<◌, ◌≤◌, ℕ, All, MatchBool, length, slice_index_or};
ghost use Rattle.gate_workers.specs.{Workers.{AnyFault, Ends, Listens, RanTo}, declared.worker.Worker.Worker};

use crate::clerk::Clerk;
use crate::worker::{End, Worker, listen, work};
use dir_http::Gate;
use std::sync::Wait;
use std::thread;
use std::thread::Threads;

/// The most threads.
const THREADS: usize = 16;

/// How all workers ended.
#[derive(Clone, Copy, Debug, PartialEq, Eq)]
pub enum Ran {
    /// A gate could not listen, and no worker began.
    Deaf,
    /// A gate failed. The other workers went on until their gates were closed, or failed.
    Failed,
    /// Each gate was closed.
    Closed,
}

/// Whether a worker's gate failed.
fn has_failed<G, K>(worker: &Worker<G, K>) -> bool
    ensures { MatchBool result (worker.now.end ≡ End.Fault) (worker.now.end ≢ End.Fault) }
{
    match worker.end {
        End::Fault => true,
        End::Working | End::Closed => false,
    }
}

/// Whether the gate of some worker failed.
fn any_fault<G, K>(workers: &[Worker<G, K>]) -> bool
    ensures { AnyFault result workers.now }
{
    'workers: for worker in workers {
        if has_failed(worker) {
            return true;
        }
    }
    false
}

/// All gates begin to listen, one after the other.
fn listen_all<H: Threads + Sync, G: Gate + Send, K: Send>(
    rt: &H,
    address: &[u8],
    workers: &mut [Worker<G, K>],
)
    requires { All (λ w. w.end ≡ End.Working) workers.old }
    ensures ends { (i : ℕ) (d : Worker G K) → i < length workers.old → Listens (G.faults (slice_index_or workers.old i d).gate) (G.faults (slice_index_or workers.new i d).gate) (slice_index_or workers.new i d).end }
    ensures faults { (i : ℕ) (d : Worker G K) → i < length workers.old → G.faults (slice_index_or workers.old i d).gate ≤ G.faults (slice_index_or workers.new i d).gate }
    ensures clerks { (i : ℕ) (d : Worker G K) → i < length workers.old → (slice_index_or workers.new i d).clerk ≡ (slice_index_or workers.old i d).clerk }
{
    let begin = |_: usize, worker: &mut Worker<G, K>|
        requires { worker.old.end ≡ End.Working }
        ensures end { Listens (G.faults worker.old.gate) (G.faults worker.new.gate) worker.new.end }
        ensures faults { G.faults worker.old.gate ≤ G.faults worker.new.gate }
        ensures clerk { worker.new.clerk ≡ worker.old.clerk }
    { listen(address, worker) };
    thread::for_each_mut(rt, workers, 1, &begin);
}

/// All workers work, each in a thread of its own where one can be made.
fn work_all<H: Threads + Wait + Sync, G: Gate + Send, K: Clerk<G::In, G::Out> + Send>(
    rt: &H,
    workers: &mut [Worker<G, K>],
)
    requires { All (λ w. K.may_work w.clerk) workers.old }
    ensures may_work { All (λ w. K.may_work w.clerk) workers.new }
    ensures comes { (i : ℕ) (d : Worker G K) → i < length workers.old → (before : K) → K.comes_to before (slice_index_or workers.old i d).clerk → K.comes_to before (slice_index_or workers.new i d).clerk }
    ensures ends { (i : ℕ) (d : Worker G K) → i < length workers.old → Ends (G.faults (slice_index_or workers.old i d).gate) (G.faults (slice_index_or workers.new i d).gate) (G.closed (slice_index_or workers.new i d).gate) (slice_index_or workers.new i d).end }
    ensures faults { (i : ℕ) (d : Worker G K) → i < length workers.old → G.faults (slice_index_or workers.old i d).gate ≤ G.faults (slice_index_or workers.new i d).gate }
{
    let serve = |_: usize, worker: &mut Worker<G, K>|
        requires { K.may_work worker.old.clerk }
        ensures may_work { K.may_work worker.new.clerk }
        ensures comes { (before : K) → K.comes_to before worker.old.clerk → K.comes_to before worker.new.clerk }
        ensures end { Ends (G.faults worker.old.gate) (G.faults worker.new.gate) (G.closed worker.new.gate) worker.new.end }
        ensures faults { G.faults worker.old.gate ≤ G.faults worker.new.gate }
    { work(rt, worker) };
    thread::for_each_mut(rt, workers, THREADS, &serve);
}

/// All gates begin to listen at an address, and all workers work until their gates are closed or fail.
pub fn run<H: Threads + Wait + Sync, G: Gate + Send, K: Clerk<G::In, G::Out> + Send>(
    rt: &H,
    address: &[u8],
    workers: &mut [Worker<G, K>],
) -> Ran
    requires may_work { All (λ w. K.may_work w.clerk) workers.old }
    requires new { All (λ w. w.end ≡ End.Working) workers.old }
    ensures may_work { All (λ w. K.may_work w.clerk) workers.new }
    ensures comes { (i : ℕ) (d : Worker G K) → i < length workers.old → (before : K) → K.comes_to before (slice_index_or workers.old i d).clerk → K.comes_to before (slice_index_or workers.new i d).clerk }
    ensures ran { RanTo G.faults G.closed workers.old workers.new result }
{
    listen_all(rt, address, workers);
    if any_fault(workers) {
        return Ran::Deaf;
    }
    work_all(rt, workers);
    if any_fault(workers) {
        Ran::Failed
    } else {
        Ran::Closed
    }
}
