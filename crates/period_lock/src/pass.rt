// The right to take turns.
ghost use Rattle.std.specs.Prelude.{◌≡◌, ◌+◌, length, Some};
ghost use Rattle.period_lock.specs.{Turns.{Knowledge, entries_by}, Kept.IsIdle};

use crate::steps::TurnSeat;
use crate::storied::Storied;
use std::marker::Model;

/// The right to take turns. Contracts see what it knows.
#[derive(Drop)]
pub struct Pass<T: Storied> {
    pub(crate) seat: TurnSeat<T>,
    pub(crate) front: u64,
}

impl<T: Storied> Model for Pass<T> {
    ghost Value = { Knowledge T.Start T.Entry };

    ghost view = { λ p. record { table = p.seat.table_id; start = p.seat.me.0.start; number = p.seat.me.0.own.number; seen = p.seat.me.0.own.seen; mine = p.seat.me.0.own.mine } };

    ghost invariant = { λ p. IsIdle p.seat.me × ((start : T.Start) → p.seat.me.0.start ≡ Some start → p.front ≡ T.front_of start + length p.seat.me.0.own.seen) × (entries_by p.seat.me.0.own.number p.seat.me.0.own.seen ≡ p.seat.me.0.own.mine) };
}

impl<T: Storied> Pass<T> {
    /// The greatest front that the pass has seen.
    pub fn front(&self) -> u64
        ensures { (start : T.Start) → self.now.start ≡ Some start → result ≡ T.front_of start + length self.now.seen }
    {
        self.front
    }
}
