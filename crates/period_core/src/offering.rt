// Votes that are offered.
ghost use Rattle.std.specs.Prelude.{◌≡◌, ◌<◌, true};
ghost use Rattle.dir_values.specs.Rosters.{has_member};
ghost use Rattle.period_terms.specs.Offers as offers;
ghost use Rattle.period_terms.specs.Offers.{most_vote_changes};
ghost use Rattle.period_core.specs.Judging.{Beats};

use crate::judging::Judged;
use crate::state::PeriodState;
use key_port::Verifier;
use period_terms::{Change, ChangeKind, Offer, ShortBytes, Via};
use vote_doc::{CheckedVote, HeldVote};

impl<V: Verifier> PeriodState<V> {
    /// Holds a vote of a member, in place of that of its authority, which it outranks.
    fn keep(&mut self, held: HeldVote)
        requires member { has_member self.old.roster held.says.identity ≡ true }
        requires some { self.old.vote_changes < most_vote_changes }
        requires beats { Beats self.old.votes held }
        ensures { self.new ≡ offers.with_vote held self.old }
    {
        let change = Change {
            kind: ChangeKind::Vote,
            authority: Some(held.vote().identity()),
            published: held.vote().published(),
            digest: ShortBytes::of(&held.rank().whole.0),
        };
        let _ = self.held.place(held);
        self.vote_changes += 1;
        self.log.add(change);
    }

    /// Offers a vote that comes this way at a moment. It takes no memory.
    pub fn offer(&mut self, vote: CheckedVote<V>, via: Via, now: u64) -> Offer
        ensures answer { result ≡ (offers.offer self.old vote via now).answer }
        ensures state { self.new ≡ (offers.offer self.old vote via now).after }
    {
        let held = vote.into_held();
        match self.judge(&held, via, now) {
            Judged::Refused(answer) => answer,
            Judged::New => {
                self.keep(held);
                Offer::Kept {
                    position: self.front(),
                }
            }
            Judged::Better(old) => {
                self.keep(held);
                Offer::Replaced {
                    position: self.front(),
                    old,
                }
            }
        }
    }
}
