// What signatures of a period are checked against.
ghost use Rattle.std.specs.Prelude.{◌≡◌, IfOk, map};
ghost use Rattle.period_core.specs.Views as views;

use crate::made::Made;
use crate::state::PeriodState;
use detached_sigs::SignerKey;
use dir_bytes::{Memory, Seq, Text};
use dir_values::{Digest1, Digest2};
use key_port::Verifier;
use period_terms::PeriodView;
use std::alloc::Global;
use vote_doc::{Accepted, Vote};

/// The authority of a vote, and its signing key.
fn key_of(alloc: Global, vote: &Vote) -> Result<SignerKey, Memory>
    ensures { IfOk result (λ key. key ≡ views.signer_key vote.now) }
{
    let key = Text::copy_of(alloc, vote.certificate().signing_key.as_bytes())?;
    let authority = vote.identity();
    Ok(SignerKey { authority, key })
}

/// The signing keys of votes.
fn keys_of(alloc: Global, held: &Accepted) -> Result<Vec<SignerKey>, Memory>
    ensures { IfOk result (λ keys. keys.items ≡ map views.signer_key held.now.votes) }
{
    let mut keys = Vec::with_capacity(alloc, held.len())?;
    'votes: for i in 0..held.len() {
        keys.push(key_of(alloc, held.vote(i).vote())?)?;
    }
    Ok(keys)
}

impl<V: Verifier> PeriodState<V> {
    /// What signatures over a consensus are checked against.
    fn view_over(&self, alloc: Global, made: &Made) -> Result<PeriodView, Memory>
        ensures { IfOk result (λ view. view ≡ views.view_over self.now made.now) }
    {
        let keys = keys_of(alloc, &self.held)?;
        Ok(PeriodView {
            valid_after: self.valid_after,
            ns: Digest1(*made.sha1()),
            microdesc: Digest2(*made.sha256()),
            keys: Seq::new(keys),
        })
    }

    /// What signatures of the period are checked against, if there are texts.
    ///
    /// # Errors
    /// `Memory` is want of memory.
    pub fn view(&self, alloc: Global) -> Result<Option<PeriodView>, Memory>
        ensures { IfOk result (λ view. view ≡ views.view_of self.now) }
    {
        match self.computed() {
            Some(made) => Ok(Some(self.view_over(alloc, made)?)),
            None => Ok(None),
        }
    }
}
