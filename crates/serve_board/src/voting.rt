// The event that offers a vote.
ghost use Rattle.std.specs.Prelude.{IfSome};
ghost use Rattle.key_port.specs.Answers.{rules};
ghost use Rattle.serve_board.specs.Events.{OffersThere, offered_entry};

use crate::period::Period;
use key_port::Verifier;
use period_lock::Event;
use period_terms::{Offer, Via};
use vote_doc::CheckedVote;

/// A vote is offered. It is there until then.
#[derive(Drop)]
pub(crate) struct OfferVote<V: Verifier> {
    pub(crate) vote: Option<CheckedVote<V>>,
    pub(crate) via: Via,
    pub(crate) now: u64,
}

impl<V: Verifier> Event<Period<V>> for OfferVote<V> {
    type Reply = Option<Offer>;

    ghost answers = { λ before start story reply event. IfSome before.vote
        (λ vote. OffersThere (rules V.may_accept V.may_refuse) vote before.via before.now start story reply) };

    ghost entry_of = { λ before reply event. offered_entry before.vote before.via before.now reply };

    fn apply(&mut self, state: &mut Period<V>) -> Option<Offer> {
        match self.vote.take() {
            Some(vote) => {
                let _ = vote.vote();
                Some(state.period_state.offer(vote, self.via, self.now))
            }
            None => None,
        }
    }
}
