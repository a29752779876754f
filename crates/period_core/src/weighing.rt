// What is told of a signature before it is held.
ghost use Rattle.std.specs.Prelude.{◌≡◌, option_map};
ghost use Rattle.period_terms.specs.States as states;
ghost use Rattle.period_core.specs.Weighing as weighing;

use crate::signing_in::has_key;
use crate::state::PeriodState;
use consensus_terms::Flavour;
use dir_values::Fingerprint;
use key_port::Verifier;
use period_terms::{CheckedSig, ShortBytes, SignIn, Stage, has_line};

/// What is told of an offered signature.
#[derive(Drop)]
pub enum Weighed {
    /// It is not held, and this is answered.
    Refused(SignIn),
    /// It is to be held.
    Fits,
}

impl<V: Verifier> PeriodState<V> {
    /// The digest of what is computed, in a flavour.
    fn ours(&self, flavour: Flavour) -> Option<ShortBytes>
        ensures { result ≡ option_map (states.digest_of flavour) self.now.computed }
    {
        match &self.made {
            Some(made) => Some(made.digest(flavour)),
            None => None,
        }
    }

    /// Whether a held vote has this authority and this signing key.
    fn knows_key(&self, authority: &Fingerprint, key: &[u8]) -> bool
        ensures { result ≡ states.has_key self.now.votes authority.now key.now }
    {
        has_key(&self.held, authority, key)
    }

    /// Whether a signature of an authority is held in a flavour.
    fn has_signed(&self, flavour: Flavour, authority: &Fingerprint) -> bool
        ensures { result ≡ states.has_line (states.lines_of flavour self.now) authority.now }
    {
        has_line(self.lines(flavour), authority)
    }

    /// Whether the period ended.
    fn is_ended(&self) -> bool
        ensures { result ≡ states.is_ended self.now.stage }
    {
        match self.stage {
            Stage::Ended => true,
            Stage::Voting | Stage::Frozen | Stage::Computed | Stage::Signed => false,
        }
    }

    /// What is told of a signature.
    pub(crate) fn weigh(&self, sig: &CheckedSig<V>) -> Weighed
        ensures { result ≡ weighing.weighed_signature self.now sig.now }
    {
        let valid_after = self.valid_after();
        if sig.valid_after() != valid_after {
            return Weighed::Refused(SignIn::OtherPeriod { valid_after });
        }
        let flavour = sig.flavour();
        let Some(ours) = self.ours(flavour) else {
            return Weighed::Refused(SignIn::NotComputed);
        };
        if sig.digest() != ours.as_bytes() {
            return Weighed::Refused(SignIn::OtherDigest { ours });
        }
        let authority = sig.authority();
        if !self.knows_key(&authority, sig.key()) {
            return Weighed::Refused(SignIn::Stranger { authority });
        }
        if self.has_signed(flavour, &authority) {
            return Weighed::Refused(SignIn::Have);
        }
        if self.is_ended() {
            return Weighed::Refused(SignIn::Closed);
        }
        Weighed::Fits
    }
}
