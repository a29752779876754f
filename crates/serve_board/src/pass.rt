// The right to make events at a board.
ghost use Rattle.std.specs.Prelude.{◌≡◌, ◌+◌, Some, length};

use crate::period::Period;
use crate::reserve::Reserve;
use key_port::Verifier;
use period_terms::State;
use std::marker::Model;

/// The right to make events at a board: a pass of each of its locks. Contracts see what it knows of both.
#[derive(Drop)]
pub struct Pass<V: Verifier> {
    pub(crate) state: period_lock::Pass<Period<V>>,
    pub(crate) pool: period_lock::Pass<Reserve<V>>,
}

impl<V: Verifier> Model for Pass<V> {
    ghost use Rattle.serve_board.specs.Boards.{Parts};

    ghost Value = { Parts };

    ghost view = { λ p. record { state = p.state; pool = p.pool } };
}

impl<V: Verifier> Pass<V> {
    /// The greatest front of the state that the pass has seen.
    pub fn front(&self) -> u64
        ensures { (start : State) → self.now.state.start ≡ Some start → result ≡ start.front + length self.now.state.seen }
    {
        self.state.front()
    }
}
