// What the table of a lock keeps, and what its seats know.
ghost use Rattle.period_lock.specs.Kept.{Kept, first_view};

use crate::storied::Storied;
use atomic_table::TableRule;
use std::collections::LinkedList;
use std::marker::PhantomData;
use std::snapshot::Snapshot;

/// What is known of one pass: its number, the entries that it has seen, and its own, each with its pass's number. No value of it is made.
pub struct Part<X> {
    pub number: u64,
    pub seen: LinkedList<(u64, X)>,
    pub mine: LinkedList<(u64, X)>,
}

/// What a seat knows: the start, whether it has the turn, its own part, and the parts that it has beside. A spent seat has no start and no part. No value of it is made.
pub struct View<S, X> {
    pub start: Option<S>,
    pub holds: bool,
    pub own: Part<X>,
    pub others: LinkedList<Part<X>>,
}

/// What a table is told when it is made: the value at the start, and the count of the passes.
#[derive(Drop)]
pub struct About<T> {
    pub begun: Snapshot<T>,
    pub passes: u32,
}

/// The table's rule.
pub struct Law<T> {
    of: PhantomData<T>,
}

impl<T: Storied> TableRule<Option<T>, View<T::Start, T::Entry>, About<T>> for Law<T> {
    ghost holds = { λ key state. Kept T.stands (T.front_of (T.start_of key.begun.value)) (T.start_of key.begun.value) key.passes state };

    ghost first = { λ key. first_view (T.start_of key.begun.value) key.passes };
}
