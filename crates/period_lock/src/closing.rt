// The meeting of all passes, and the value that they leave.
ghost use Rattle.std.specs.Prelude.{◌≡◌, ◌<◌, ◌≤◌, ◌++◌, [], ◌∷◌, length, map};
ghost use Rattle.period_lock.specs.{Kept.{IsTurnTable, part_of, gathered_view}, Turns.{AreOf, EndsIn}};

use crate::moves::Meeting;
use crate::pass::Pass;
use crate::steps::{TurnSeat, TurnTable};
use crate::storied::Storied;

/// One seat gets the parts of all passes, in their order, before those of the last seat.
pub fn gather<T: Storied>(
    table: &TurnTable<T>,
    last: TurnSeat<T>,
    passes: Vec<Pass<T>>,
) -> TurnSeat<T>
    requires table { IsTurnTable table.now.shared.table_id }
    requires fits { last.table_id ≡ table.now.shared.table_id }
    requires last { last.me ≡ (gathered_view (T.start_of table.now.shared.key.begun.value) last.me.0.own last.me.0.others, []) }
    requires passes { AreOf (record { table = table.now.shared.table_id; start = T.start_of table.now.shared.key.begun.value; passes = table.now.shared.key.passes }) passes.items }
    ensures fits { result.table_id ≡ table.now.shared.table_id }
    ensures seat { result.me ≡ (gathered_view (T.start_of table.now.shared.key.begun.value) result.me.0.own result.me.0.others, []) }
    ensures parts { result.me.0.own ∷ result.me.0.others ≡ map part_of passes.items ++ last.me.0.own ∷ last.me.0.others }
{
    let mut all = last;
    let mut left = passes;
    while let Some(pass) = left.pop() {
        let Pass { mut seat, front: _ } = pass;
        table.shared.join_seat::<Meeting>(&mut seat, all);
        all = seat;
    }
    all
}

/// The value of a table whose passes have all come back.
pub fn finish<T: Storied>(table: TurnTable<T>, passes: Vec<Pass<T>>) -> T
    requires table { IsTurnTable table.shared.table_id }
    requires some { 0 < table.shared.key.passes }
    requires all { table.shared.key.passes ≤ length passes.items }
    requires passes { AreOf (record { table = table.shared.table_id; start = T.start_of table.shared.key.begun.value; passes = table.shared.key.passes }) passes.items }
    ensures { EndsIn T.stands (record { table = table.shared.table_id; start = T.start_of table.shared.key.begun.value; passes = table.shared.key.passes }) passes.items result }
{
    let mut left = passes;
    let Some(pass) = left.pop() else {
        unreachable!()
    };
    let Pass { seat, front: _ } = pass;
    let all = gather(&table, seat, left);
    let mut closed = table.close_with(all);
    let found = closed.take(0);
    closed.free();
    match found {
        Some(value) => value,
        None => unreachable!(),
    }
}
