// The steps of a turn.
ghost use Rattle.std.specs.Prelude.{◌≡◌, ◌+◌, ◌<◌, ◌^◌, length, option_to_list, None, IfSome, IfNone};
ghost use Rattle.period_lock.specs.{Kept.{IsTurnTable, IsFree, IsHolding, HasTaken, grown_part}, Turns.entries};

use crate::moves::{Adding, Count, Give, Try};
use crate::rule::{About, Law, View};
use crate::storied::{Event, Storied};
use atomic_table::{Seat, Table};
use std::alloc::Global;
use std::snapshot::Snapshot;
use std::sync::Wait;

/// The table of a lock: the first word counts the changes, the second is the turn, and the slot has the value.
pub type TurnTable<T> = Table<
    Option<T>,
    View<<T as Storied>::Start, <T as Storied>::Entry>,
    About<T>,
    Law<T>,
    Global,
>;

/// A seat at the table of a lock.
pub type TurnSeat<T> = Seat<Option<T>, View<<T as Storied>::Start, <T as Storied>::Entry>>;

/// The word that counts the changes.
const CHANGES: usize = 0;

/// The word that is 1 while a seat has the turn.
const TURN: usize = 1;

/// Tries for the turn, and takes the value out where it was free.
fn try_take<T: Storied>(table: &TurnTable<T>, seat: &mut TurnSeat<T>) -> Option<T>
    requires table { IsTurnTable table.now.shared.table_id }
    requires fits { seat.old.table_id ≡ table.now.shared.table_id }
    requires free { IsFree (T.start_of table.now.shared.key.begun.value) seat.old.me.0.own seat.old.me }
    ensures fits { seat.new.table_id ≡ seat.old.table_id }
    ensures none { IfNone result (seat.new.me ≡ seat.old.me) }
    ensures some { IfSome result (λ value. HasTaken T.stands (T.start_of table.now.shared.key.begun.value) seat.old.me.0.own seat.new.me value) }
{
    let found = table.shared.compare_exchange::<Try<T>>(seat, TURN, 0, 1);
    if found == 0 {
        table.shared.exchange(seat, 0, None)
    } else {
        None
    }
}

/// Waits for the turn, and takes the value out.
pub fn take<R: Wait, T: Storied>(rt: &R, table: &TurnTable<T>, seat: &mut TurnSeat<T>) -> T
    requires table { IsTurnTable table.now.shared.table_id }
    requires fits { seat.old.table_id ≡ table.now.shared.table_id }
    requires free { IsFree (T.start_of table.now.shared.key.begun.value) seat.old.me.0.own seat.old.me }
    ensures fits { seat.new.table_id ≡ seat.old.table_id }
    ensures taken { HasTaken T.stands (T.start_of table.now.shared.key.begun.value) seat.old.me.0.own seat.new.me result }
{
    for _ in rt.forever() {
        if let Some(value) = try_take(table, seat) {
            return value;
        }
    }
    unreachable!()
}

/// Counts the change that an event made, if it made one, and tells its entry.
pub fn count<T: Storied, E: Event<T>, N: Adding<T::Entry>>(
    table: &TurnTable<T>,
    seat: &mut TurnSeat<T>,
    changes: u64,
    before: &Snapshot<E>,
    reply: &E::Reply,
    event: &E,
)
    requires table { IsTurnTable table.now.shared.table_id }
    requires fits { seat.old.table_id ≡ table.now.shared.table_id }
    requires holding { IsHolding (T.start_of table.now.shared.key.begun.value) seat.old.me.0.own None seat.old.me }
    requires entry { N.entry ≡ E.entry_of before.now.value reply.now event.now }
    requires changes { changes ≡ length (option_to_list (E.entry_of before.now.value reply.now event.now)) }
    requires room { T.front_of (T.start_of table.now.shared.key.begun.value) + length seat.old.me.0.own.seen + changes < 2 ^ 64 }
    ensures fits { seat.new.table_id ≡ seat.old.table_id }
    ensures counted { IsHolding (T.start_of table.now.shared.key.begun.value) (grown_part (E.entry_of before.now.value reply.now event.now) seat.old.me.0.own) None seat.new.me }
{
    table
        .shared
        .fetch_add::<Count<T, N>>(seat, CHANGES, changes);
}

/// Puts the value back, and gives the turn back.
pub fn give_back<T: Storied>(table: &TurnTable<T>, seat: &mut TurnSeat<T>, value: T)
    requires table { IsTurnTable table.now.shared.table_id }
    requires fits { seat.old.table_id ≡ table.now.shared.table_id }
    requires holding { IsHolding (T.start_of table.now.shared.key.begun.value) seat.old.me.0.own None seat.old.me }
    requires stands { T.stands value (T.start_of table.now.shared.key.begun.value) (entries seat.old.me.0.own.seen) }
    ensures fits { seat.new.table_id ≡ seat.old.table_id }
    ensures free { IsFree (T.start_of table.now.shared.key.begun.value) seat.old.me.0.own seat.new.me }
{
    match table.shared.exchange(seat, 0, Some(value)) {
        None => {}
        Some(_) => unreachable!(),
    }
    table.shared.store::<Give<T>>(seat, TURN, 0);
}
