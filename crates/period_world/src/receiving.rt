// What comes to an authority is taken, one after the other.
ghost use Rattle.std.specs.Prelude.{◌≡◌, IfOk, OnErr};
ghost use Rattle.key_port.specs.Answers.{rules};
ghost use Rattle.period_world.specs.Calls.{TakesOne, TakesAll};

use crate::coming::Coming;
use dir_bytes::Memory;
use key_port::{Signer, Verifier};
use period_core::PeriodState;
use period_terms::{Answer, CheckedSig};
use std::alloc::Global;
use std::collections::VecDeque;
use vote_doc::CheckedVote;

/// Takes what comes, and answers it.
///
/// # Errors
/// `Memory` is want of memory; all is then as it was.
pub fn take<N: Signer, V: Verifier>(
    alloc: Global,
    state: &mut PeriodState<V>,
    coming: Coming<CheckedVote<V>, CheckedSig<V>>,
    signer: &mut N,
    verifier: &mut V,
) -> Result<Answer, Memory>
    ensures step { IfOk result
        (λ answer. TakesOne N.may_give (rules V.may_accept V.may_refuse) state.old coming answer state.new) }
    ensures err { OnErr result (state.new ≡ state.old) }
{
    match coming {
        Coming::Vote { vote, via, now } => {
            let _ = vote.vote();
            Ok(Answer::Vote(state.offer(vote, via, now)))
        }
        Coming::Moment { now } => match state.advance(alloc, now, signer, verifier) {
            Ok(answer) => Ok(Answer::Moment(answer)),
            Err(fault) => Err(fault),
        },
        Coming::Signature { signature } => {
            let _ = signature.signature();
            let _ = signature.key_digest();
            Ok(Answer::Signature(state.sign_in(signature)))
        }
    }
}

/// Takes all that comes, in its order: the state after it, and the answers.
///
/// # Errors
/// `Memory` is want of memory.
pub fn take_all<N: Signer, V: Verifier>(
    alloc: Global,
    state: PeriodState<V>,
    coming: VecDeque<Coming<CheckedVote<V>, CheckedSig<V>>>,
    signer: &mut N,
    verifier: &mut V,
) -> Result<(PeriodState<V>, Vec<Answer>), Memory>
    ensures { IfOk result (λ taken. TakesAll N.may_give (rules V.may_accept V.may_refuse) state coming.items taken.1.items taken.0) }
{
    let mut state = state;
    let mut coming = coming;
    let mut answers = Vec::new(alloc);
    'coming: while let Some(one) = coming.pop_front() {
        answers.push(take(alloc, &mut state, one, signer, verifier)?)?;
    }
    Ok((state, answers))
}
