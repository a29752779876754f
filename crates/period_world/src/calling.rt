// A call at one of several authorities.
ghost use Rattle.std.specs.Prelude.{◌≡◌, IfOk, OnErr};
ghost use Rattle.key_port.specs.Answers.{rules};
ghost use Rattle.period_world.specs.WorldCalls.{LeadsOn};

use crate::coming::Coming;
use crate::receiving::take;
use dir_bytes::Memory;
use key_port::{Signer, Verifier};
use period_core::PeriodState;
use period_terms::{Answer, CheckedSig};
use std::alloc::Global;
use vote_doc::CheckedVote;

/// Takes what comes to one of several authorities, as `take` does: a world with this state goes on by this call,
/// where a signature comes only after its authority signed.
///
/// # Errors
/// `Memory` is want of memory; all is then as it was.
pub fn take_among<N: Signer, V: Verifier>(
    alloc: Global,
    state: &mut PeriodState<V>,
    coming: Coming<CheckedVote<V>, CheckedSig<V>>,
    signer: &mut N,
    verifier: &mut V,
) -> Result<Answer, Memory>
    ensures leads { IfOk result (λ answer. LeadsOn N.may_give (rules V.may_accept V.may_refuse)
        state.old coming answer state.new) }
    ensures err { OnErr result (state.new ≡ state.old) }
{
    take(alloc, state, coming, signer, verifier)
}
