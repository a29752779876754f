// What gives connections, with a count of its faults.
ghost use Rattle.std.specs.Prelude.{◌≡◌, Bool, ℕ, true, false};
ghost use Rattle.dir_http.specs.Gates.{CountsListening, CountsGate, is_closed};

use dir_bytes::{Sink, Source};

/// What listening answers.
#[derive(Clone, Copy, Debug, PartialEq, Eq)]
pub enum ListenAnswer {
    Listening,
    /// The gate failed.
    Fault,
}

/// What a gate answers.
#[derive(Debug, Drop)]
pub enum GateAnswer<S, K> {
    /// A connection: what its request is read from, and what the response is written to.
    Connection(S, K),
    /// None came in a while.
    Idle,
    /// None will come.
    Closed,
    /// The gate failed.
    Fault,
}

/// What gives connections.
pub trait Gate {
    /// What a request is read from. It may be sent to another thread, as a gate is.
    type In: Source + Drop + Send;

    /// What a response is written to.
    type Out: Sink + Drop + Send;

    /// Whether it was called yet.
    ghost asked: { Self → Bool };

    /// Whether its last call answered that none will come.
    ghost closed: { Self → Bool };

    /// How often the gate has failed. The count stands still at the last `u64`.
    ghost faults: { Self → ℕ };

    /// Begins to listen at an address.
    fn listen(&mut self, address: &[u8]) -> ListenAnswer
        ensures asked { asked self.new ≡ true }
        ensures closed { closed self.new ≡ false }
        ensures cause { CountsListening (faults self.old) (faults self.new) result };

    /// The next connection, if one comes.
    fn next(&mut self) -> GateAnswer<Self::In, Self::Out>
        ensures asked { asked self.new ≡ true }
        ensures closed { closed self.new ≡ is_closed result }
        ensures cause { CountsGate (faults self.old) (faults self.new) result };
}
