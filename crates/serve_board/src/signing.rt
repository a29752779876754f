// The event that offers a signature.
ghost use Rattle.std.specs.Prelude.{IfSome};
ghost use Rattle.key_port.specs.Answers.{rules};
ghost use Rattle.serve_board.specs.Events.{SignsThere, signed_entry};

use crate::period::Period;
use key_port::Verifier;
use period_lock::Event;
use period_terms::{CheckedSig, SignIn};

/// A signature is offered. It is there until then.
#[derive(Drop)]
pub(crate) struct OfferSignature<V: Verifier> {
    pub(crate) signature: Option<CheckedSig<V>>,
}

impl<V: Verifier> Event<Period<V>> for OfferSignature<V> {
    type Reply = Option<SignIn>;

    ghost answers = { λ before start story reply event. IfSome before.signature
        (λ signature. SignsThere (rules V.may_accept V.may_refuse) signature start story reply) };

    ghost entry_of = { λ before reply event. signed_entry before.signature reply };

    fn apply(&mut self, state: &mut Period<V>) -> Option<SignIn> {
        match self.signature.take() {
            Some(signature) => {
                let _ = signature.signature();
                let _ = signature.key_digest();
                Some(state.period_state.sign_in(signature))
            }
            None => None,
        }
    }
}
