// A vote that is uploaded.
ghost use Rattle.std.specs.Prelude.{◌≤◌, ℕ, List};
ghost use Rattle.key_port.specs.Answers.{rules};
ghost use Rattle.serve_board.specs.Boards.{IsAt};
ghost use Rattle.lone_vote.specs.Alone.{IsFound, IsVote};
ghost use Rattle.serve_answers.specs.Answers.{TakesVote};

use crate::words::{reply_to_offer, reply_to_vote};
use dir_bytes::Clock;
use http_words::{Reply, Word};
use key_port::Verifier;
use period_terms::Via;
use serve_board::{Board, Pass};
use std::sync::Wait;
use vote_doc::{Vote, check_vote};

/// Takes a vote that is uploaded, if the body is one: one that holds when its own period begins is offered once, at the
/// moment of the clock, which is asked then.
pub fn take_vote<R: Wait, C: Clock, V: Verifier>(
    rt: &R,
    board: &Board<V>,
    pass: &mut Pass<V>,
    clock: &mut C,
    verifier: &mut V,
    found: Option<Vote>,
) -> Reply
    requires at { IsAt board.now pass.old }
    ensures takes { (body : List ℕ) → IsFound (IsVote body) found
        → TakesVote (rules V.may_accept V.may_refuse) board.now pass.old pass.new
        (V.faults verifier.old) (V.faults verifier.new) (C.asks clock.old) (C.asks clock.new) (C.last clock.new)
        body result }
    ensures at { IsAt board.now pass.new }
    ensures faults { V.faults verifier.old ≤ V.faults verifier.new }
    ensures asks { C.asks clock.old ≤ C.asks clock.new }
{
    let Some(vote) = found else {
        return Reply::Refused(Word::Document);
    };
    let valid_after = vote.valid_after();
    match check_vote(vote, board.roster(), valid_after, verifier) {
        Ok(checked) => {
            let now = clock.now();
            reply_to_offer(&board.offer(rt, pass, checked, Via::Upload, now))
        }
        Err(refusal) => reply_to_vote(&refusal),
    }
}
