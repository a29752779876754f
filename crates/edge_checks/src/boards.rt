// What the passes of a board have seen.
ghost use Rattle.std.specs.Prelude.{All, IfOk};
ghost use Rattle.serve_board.specs.Boards.{IsAt};

use count_terms::Newest;
use dir_bytes::Memory;
use dir_values::{Fingerprint, Roster};
use key_port::TestKeys;
use period_core::PeriodState;
use period_terms::Advance;
use serve_board::{Board, Pass};
use std::alloc::Global;
use std::sync::Wait;
use std::test::Fail;
use vote_pool::Pool;
use vote_schedule::Config;

/// 2025-12-31 23:40:00.
const START: u64 = 1767224400;

/// 2025-12-31 23:55:00, when no vote is taken any more.
const FREEZE: u64 = 1767225300;

/// A board of one authority of three, and two passes of it.
fn board_of(alloc: Global) -> Result<(Board<TestKeys>, Vec<Pass<TestKeys>>), Fail>
    ensures { IfOk result (λ opened. All (IsAt opened.0) opened.1.items) }
{
    let own = Fingerprint([1; 20]);
    let all = [own, Fingerprint([2; 20]), Fingerprint([3; 20])];
    let roster = Roster::new(all.to_vec(alloc)?)?;
    let config = Config::new(3600, 300, 300)?;
    let Ok(state) = PeriodState::start(alloc, roster, own, Newest::Method33, config, START) else {
        return Err(Fail::new("no station"));
    };
    Ok(Board::new(alloc, state, Pool::new(alloc)?, 2)?)
}

/// What the authority does at a moment when no vote was ever offered.
#[derive(Clone, Copy, PartialEq, Eq)]
enum Step {
    Nothing,
    Frozen,
    NoConsensus,
    Other,
}

/// Advances the authority by a pass.
fn advanced_by<R: Wait>(
    rt: &R,
    alloc: Global,
    board: &Board<TestKeys>,
    pass: &mut Pass<TestKeys>,
) -> Result<Step, Memory>
    requires { IsAt board.now pass.old }
    ensures { IsAt board.now pass.new }
{
    let mut signer = TestKeys::new(Vec::new(alloc));
    let mut verifier = TestKeys::new(Vec::new(alloc));
    match board.advance(rt, alloc, pass, FREEZE, &mut signer, &mut verifier)? {
        Advance::Nothing => Ok(Step::Nothing),
        Advance::Frozen => Ok(Step::Frozen),
        Advance::NoConsensus { held: 0, roster: 3 } => Ok(Step::NoConsensus),
        _ => Ok(Step::Other),
    }
}

#[test]
fn a_pass_has_seen_what_came_before_its_turn(rt: HostRuntime) -> Result<(), Fail> {
    let alloc = rt.alloc();
    let (board, mut passes) = board_of(alloc)?;
    let mut other = passes.pop().ok_or("two passes")?;
    let mut one = passes.pop().ok_or("two passes")?;
    let first = advanced_by(&rt, alloc, &board, &mut one)?;
    if (first, one.front(), other.front()) != (Step::Frozen, 1, 0) {
        return Err(Fail::new(1));
    }
    let second = advanced_by(&rt, alloc, &board, &mut other)?;
    if (second, one.front(), other.front()) != (Step::NoConsensus, 1, 2) {
        return Err(Fail::new(2));
    }
    let third = advanced_by(&rt, alloc, &board, &mut one)?;
    if (third, one.front(), other.front()) != (Step::Nothing, 2, 2) {
        return Err(Fail::new(3));
    }
    Ok(())
}
