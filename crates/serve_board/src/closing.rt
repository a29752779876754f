// The meeting of all passes of a board.
ghost use Rattle.std.specs.Prelude.{◌≡◌, ◌≤◌, [], All, length, map, vec_capacity, IfOk};
ghost use Rattle.key_port.specs.Answers.{rules};
ghost use Rattle.serve_board.specs.Boards.{IsAt, Leaves};

use crate::board::Board;
use crate::pass::Pass;
use crate::period::Period;
use crate::reserve::Reserve;
use dir_bytes::Memory;
use key_port::Verifier;
use period_core::PeriodState;
use std::alloc::Global;
use vote_pool::Pool;

/// Room for the passes of both locks, which is taken before they are made use of: closing takes no memory.
#[derive(Drop)]
pub struct Rooms<V: Verifier> {
    pub(crate) states: Vec<period_lock::Pass<Period<V>>>,
    pub(crate) pools: Vec<period_lock::Pass<Reserve<V>>>,
}

impl<V: Verifier> Rooms<V> {
    /// Room for so many passes.
    ///
    /// # Errors
    /// `Memory` is want of memory.
    pub fn new(alloc: Global, passes: usize) -> Result<Rooms<V>, Memory>
        ensures empty { IfOk result (λ r. (r.states.items ≡ []) × (r.pools.items ≡ [])) }
        ensures room { IfOk result (λ r. (passes ≤ vec_capacity r.states) × (passes ≤ vec_capacity r.pools)) }
    {
        Ok(Rooms {
            states: Vec::with_capacity(alloc, passes)?,
            pools: Vec::with_capacity(alloc, passes)?,
        })
    }
}

/// The passes of each lock, in their order, without memory.
fn part<V: Verifier>(passes: Vec<Pass<V>>, rooms: Rooms<V>) -> Rooms<V>
    requires empty { (rooms.states.items ≡ []) × (rooms.pools.items ≡ []) }
    requires room { (length passes.items ≤ vec_capacity rooms.states) × (length passes.items ≤ vec_capacity rooms.pools) }
    ensures states { result.states.items ≡ map (λ p. p.state) passes.items }
    ensures pools { result.pools.items ≡ map (λ p. p.pool) passes.items }
{
    let Rooms {
        mut states,
        mut pools,
    } = rooms;
    for pass in passes {
        let Pass { state, pool } = pass;
        states.push_reserved(state);
        pools.push_reserved(pool);
    }
    Rooms { states, pools }
}

impl<V: Verifier> Board<V> {
    /// The state and the pool, where all passes have come back.
    pub fn close(self, passes: Vec<Pass<V>>, rooms: Rooms<V>) -> (PeriodState<V>, Pool<V>)
        requires at { All (IsAt self) passes.items }
        requires all { (self.state.passes ≤ length passes.items) × (self.pool.passes ≤ length passes.items) }
        requires empty { (rooms.states.items ≡ []) × (rooms.pools.items ≡ []) }
        requires room { (length passes.items ≤ vec_capacity rooms.states) × (length passes.items ≤ vec_capacity rooms.pools) }
        ensures { Leaves (rules V.may_accept V.may_refuse) self passes.items result.0 result.1 }
    {
        let Rooms { states, pools } = part(passes, rooms);
        let Board {
            state,
            pool,
            roster: _,
            own: _,
            newest: _,
        } = self;
        let Ok(period) = state.close(states) else {
            unreachable!()
        };
        let Ok(reserve) = pool.close(pools) else {
            unreachable!()
        };
        (period.period_state, reserve.pool)
    }
}
