// What is told of a vote before it is held.
ghost use Rattle.std.specs.Prelude.{◌≡◌};
ghost use Rattle.vote_terms.specs.Votes as votes;
ghost use Rattle.period_core.specs.Judging as judging;

use crate::state::PeriodState;
use key_port::Verifier;
use period_terms::{Offer, Via};
use vote_doc::HeldVote;
use vote_terms::Rank;

/// What is told of an offered vote.
#[derive(Clone, Copy)]
pub enum Judged {
    /// It is not held, and this is answered.
    Refused(Offer),
    /// It is to be held, where none was.
    New,
    /// It is to be held, in place of one of this smaller rank.
    Better(Rank),
}

/// Whether a rank is above another.
fn is_above(a: &Rank, b: &Rank) -> bool
    ensures { result ≡ votes.is_above a.now b.now }
{
    a.published > b.published
        || (a.published == b.published && b.whole.0.as_slice().cmp(a.whole.0.as_slice()).is_lt())
}

/// What is told of a vote of this rank, beside the held one of its authority.
fn compare(held: Option<Rank>, rank: Rank, full: bool) -> Judged
    ensures { result ≡ judging.judged_rank held rank full }
{
    match held {
        None => {
            if full {
                Judged::Refused(Offer::Full)
            } else {
                Judged::New
            }
        }
        Some(held) => {
            if is_above(&held, &rank) {
                Judged::Refused(Offer::Older { held })
            } else if is_above(&rank, &held) {
                if full {
                    Judged::Refused(Offer::Full)
                } else {
                    Judged::Better(held)
                }
            } else {
                Judged::Refused(Offer::Have { held })
            }
        }
    }
}

impl<V: Verifier> PeriodState<V> {
    /// What is told of a vote that comes this way at a moment.
    pub(crate) fn judge(&self, held: &HeldVote, via: Via, now: u64) -> Judged
        ensures { result ≡ judging.judged_vote self.now held.now via now }
    {
        let vote = held.vote();
        let valid_after = self.valid_after();
        if vote.valid_after() != valid_after {
            return Judged::Refused(Offer::OtherPeriod { valid_after });
        }
        let authority = vote.identity();
        if !self.has_member(&authority) {
            return Judged::Refused(Offer::Stranger { authority });
        }
        let cutoff = self.cutoff(via);
        let frozen = !self.is_voting();
        if frozen || cutoff <= now {
            return Judged::Refused(Offer::Late {
                now,
                cutoff,
                frozen,
            });
        }
        compare(self.rank_held(&authority), held.rank(), self.is_full())
    }
}
