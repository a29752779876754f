// A new table, and its first passes.
ghost use Rattle.std.specs.Prelude.{◌≡◌, ◌<◌, ◌≤◌, [], vec_capacity, IfOk};
ghost use Rattle.period_lock.specs.{Kept.{IsTurnTable, IsFree, first_view, fresh_part}, Turns.{AreDealt, newcomer}};

use crate::moves::Parting;
use crate::pass::Pass;
use crate::rule::About;
use crate::steps::{TurnSeat, TurnTable};
use crate::storied::Storied;
use atomic_table::Table;
use std::alloc::{AllocError, Global};

/// A table with the value in its slot and the turn free, and a seat that has the parts of all passes. It fails for want of memory alone.
pub fn open<T: Storied + Drop>(
    alloc: Global,
    value: T,
    front: u64,
    about: &About<T>,
) -> Result<(TurnTable<T>, TurnSeat<T>), AllocError>
    requires passes { 0 < about.now.passes }
    requires front { front ≡ T.front_of (T.start_of about.now.begun.value) }
    requires stands { T.stands value (T.start_of about.now.begun.value) [] }
    ensures table { IfOk result (λ r. IsTurnTable r.0.shared.table_id × (r.0.shared.key ≡ about.now)) }
    ensures seat { IfOk result (λ r. (r.1.table_id ≡ r.0.shared.table_id) × (r.1.me ≡ (first_view (T.start_of about.now.begun.value) about.now.passes, []))) }
{
    let mut slots = Vec::with_capacity(alloc, 1)?;
    slots.push_reserved(Some(value));
    match Table::new(alloc, &[front, 0], slots, about) {
        Ok(made) => Ok(made),
        Err(_) => Err(AllocError),
    }
}

/// A pass that has seen nothing.
fn new_pass<T: Storied>(table: &TurnTable<T>, seat: TurnSeat<T>, front: u64) -> Pass<T>
    requires front { front ≡ T.front_of (T.start_of table.now.shared.key.begun.value) }
    requires fits { seat.table_id ≡ table.now.shared.table_id }
    requires seat { IsFree (T.start_of table.now.shared.key.begun.value) (fresh_part seat.me.0.own.number) seat.me }
    ensures { result ≡ newcomer (record { table = table.now.shared.table_id; start = T.start_of table.now.shared.key.begun.value; passes = table.now.shared.key.passes }) seat.me.0.own.number }
{
    let _ = table;
    Pass { seat, front }
}

/// Gives each pass its part of the first seat, without memory.
pub fn deal<T: Storied>(
    table: &TurnTable<T>,
    first: TurnSeat<T>,
    front: u64,
    count: u32,
    room: Vec<Pass<T>>,
) -> Vec<Pass<T>>
    requires table { IsTurnTable table.now.shared.table_id }
    requires count { (0 < count) × (count ≡ table.now.shared.key.passes) }
    requires front { front ≡ T.front_of (T.start_of table.now.shared.key.begun.value) }
    requires fits { first.table_id ≡ table.now.shared.table_id }
    requires first { first.me ≡ (first_view (T.start_of table.now.shared.key.begun.value) count, []) }
    requires empty { room.items ≡ [] }
    requires room { count ≤ vec_capacity room }
    ensures { AreDealt (record { table = table.now.shared.table_id; start = T.start_of table.now.shared.key.begun.value; passes = table.now.shared.key.passes }) count result.items }
{
    let mut first = first;
    let mut passes = room;
    for number in 0..count - 1 {
        let _ = number;
        let seat = table.shared.split_seat::<Parting>(&mut first);
        passes.push_reserved(new_pass(table, seat, front));
    }
    passes.push_reserved(new_pass(table, first, front));
    passes
}
