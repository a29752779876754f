// A gate in memory, which gives what it was made with and then closes.
ghost use Rattle.std.specs.Prelude.{◌≡◌, true, false};
ghost use Rattle.dir_http.specs.Gates.{CountsListening, CountsGate, is_closed};

use crate::gate::{Gate, GateAnswer, ListenAnswer};
use dir_bytes::{Sink, Source};
use std::collections::VecDeque;

/// A gate that gives answers in their order, and is then closed. The calls whose numbers, from 1, stand in `failing`
/// fail; a call of either kind counts.
#[derive(Drop)]
pub struct MemoryGate<S, K> {
    answers: VecDeque<GateAnswer<S, K>>,
    failing: Vec<u64>,
    calls: u64,
    faults: u64,
    asked: bool,
    closed: bool,
}

impl<S: Source + Drop + Send, K: Sink + Drop + Send> MemoryGate<S, K> {
    /// A gate that was not called yet.
    pub fn new(answers: VecDeque<GateAnswer<S, K>>, failing: Vec<u64>) -> MemoryGate<S, K>
        ensures asked { ⟦<MemoryGate<S, K> as Gate>⟧.asked result ≡ false }
        ensures closed { ⟦<MemoryGate<S, K> as Gate>⟧.closed result ≡ false }
        ensures faults { ⟦<MemoryGate<S, K> as Gate>⟧.faults result ≡ 0 }
    {
        MemoryGate {
            answers,
            failing,
            calls: 0,
            faults: 0,
            asked: false,
            closed: false,
        }
    }
}

impl<S: Source + Drop + Send, K: Sink + Drop + Send> Gate for MemoryGate<S, K> {
    type In = S;

    type Out = K;

    ghost asked = { λ g. g.asked };

    ghost closed = { λ g. g.closed };

    ghost faults = { λ g. g.faults };

    fn listen(&mut self, _address: &[u8]) -> ListenAnswer {
        self.asked = true;
        self.closed = false;
        self.calls = self.calls.saturating_add(1);
        if self.failing.contains(&self.calls) {
            self.faults = self.faults.saturating_add(1);
            return ListenAnswer::Fault;
        }
        ListenAnswer::Listening
    }

    fn next(&mut self) -> GateAnswer<S, K> {
        self.asked = true;
        self.closed = false;
        self.calls = self.calls.saturating_add(1);
        if self.failing.contains(&self.calls) {
            self.faults = self.faults.saturating_add(1);
            return GateAnswer::Fault;
        }
        match self.answers.pop_front() {
            Some(GateAnswer::Connection(input, output)) => GateAnswer::Connection(input, output),
            Some(GateAnswer::Idle) => GateAnswer::Idle,
            Some(GateAnswer::Fault) => {
                self.faults = self.faults.saturating_add(1);
                GateAnswer::Fault
            }
            Some(GateAnswer::Closed) => {
                self.closed = true;
                GateAnswer::Closed
            }
            None => {
                self.closed = true;
                GateAnswer::Closed
            }
        }
    }
}
