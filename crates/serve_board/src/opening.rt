// The first passes of a board: pairs of one pass of each lock.
ghost use Rattle.std.specs.Prelude.{◌≡◌, ◌≤◌, [], All, length, vec_capacity};
ghost use Rattle.period_lock.specs.Turns.{AreDealt};
ghost use Rattle.serve_board.specs.{Boards.IsPair, Passes.DifferInNumber};

use crate::pass::Pass;
use crate::period::Period;
use crate::reserve::Reserve;
use key_port::Verifier;
use period_lock::Shared;

/// Pairs of passes with one number at both locks, the last number first, without memory.
pub(crate) fn pair<V: Verifier>(
    state: &Shared<Period<V>>,
    pool: &Shared<Reserve<V>>,
    states: Vec<period_lock::Pass<Period<V>>>,
    pools: Vec<period_lock::Pass<Reserve<V>>>,
    room: Vec<Pass<V>>,
) -> Vec<Pass<V>>
    requires states { AreDealt state.now (length states.items) states.items }
    requires pools { AreDealt pool.now (length states.items) pools.items }
    requires empty { room.items ≡ [] }
    requires room { length states.items ≤ vec_capacity room }
    ensures count { length result.items ≡ length states.items }
    ensures pairs { All (IsPair state.now pool.now) result.items }
    ensures numbers { DifferInNumber result.items }
{
    let _ = state;
    let _ = pool;
    let mut states = states;
    let mut pools = pools;
    let mut passes = room;
    'passes: while let Some(state) = states.pop() {
        let Some(pool) = pools.pop() else {
            unreachable!()
        };
        passes.push_reserved(Pass { state, pool });
    }
    passes
}
