// A vote that was checked.
ghost use Rattle.std.specs.Prelude.{◌≡◌};
ghost use Rattle.key_port.specs.Answers.{rules};
ghost use Rattle.vote_terms.specs.{Acceptable.IsVerified, Votes.vote_digest};

use crate::held::{HeldVote, rank_with};
use crate::vote::Vote;
use dir_values::{Digest1, Digest2};
use key_port::Verifier;
use std::marker::{Model, PhantomData};

/// A vote that holds under a verifier: its certificate and its signatures were checked, at the moment when its period
/// begins. Whose roster and whose period that is was asked when it was checked, and is not kept.
#[derive(Drop)]
pub struct CheckedVote<V: Verifier> {
    vote: Vote,
    digest: Digest1,
    whole: Option<Digest2>,
    verifier: PhantomData<V>,
}

impl<V: Verifier> Model for CheckedVote<V> {
    ghost use Rattle.std.specs.Prelude.{◌≡◌};
    ghost use Rattle.key_port.specs.Answers.{rules};
    ghost use Rattle.vote_terms.specs.{Acceptable.IsVerified, Votes.{ReadVote, vote_digest}};
    ghost use Rattle.vote_doc.specs.Ranks.{IsWholeOf};

    ghost Value = { ReadVote };

    ghost view = { λ c. c.vote };

    ghost invariant = { λ c. IsVerified (rules V.may_accept V.may_refuse) c.vote × (c.digest ≡ vote_digest c.vote)
        × IsWholeOf c.vote c.whole };
}

impl<V: Verifier> CheckedVote<V> {
    /// The vote, which holds, with the digest that names it.
    pub(crate) fn new(vote: Vote, digest: Digest1) -> CheckedVote<V>
        requires verified { IsVerified (rules V.may_accept V.may_refuse) vote }
        requires digest { digest ≡ vote_digest vote }
        ensures { result ≡ vote }
    {
        CheckedVote {
            vote,
            digest,
            whole: None,
            verifier: PhantomData,
        }
    }

    /// The vote.
    pub fn vote(&self) -> &Vote
        ensures vote { result.now ≡ self.now }
        ensures verified { IsVerified (rules V.may_accept V.may_refuse) self.now }
    {
        &self.vote
    }

    /// Computes the digest of the vote's rank, where it is not known, so that what is made of the vote knows it.
    pub fn know_rank(&mut self)
        ensures { self.new ≡ self.old }
    {
        self.whole = Some(rank_with(&self.vote, self.whole).whole);
    }

    /// The vote as one that may be held. Takes no memory.
    pub fn into_held(self) -> HeldVote
        ensures vote { result ≡ self }
        ensures verified { IsVerified (rules V.may_accept V.may_refuse) self }
    {
        HeldVote::new(self.vote, self.digest, self.whole)
    }
}
