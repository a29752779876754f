// Signatures that are offered.
ghost use Rattle.std.specs.Prelude.{◌≡◌, ◌≤◌, ◌+◌, ◌++◌, ◌∷◌, ◌<◌, [], false, true, None, Some, IsSome, length};
ghost use Rattle.std.specs.Prelude.{vec_len, vec_capacity};
ghost use Rattle.dir_values.specs.Rosters.{has_member};
ghost use Rattle.period_terms.specs.SignIns as sign_ins;
ghost use Rattle.period_terms.specs.States as states;
ghost use Rattle.period_core.specs.Standing.{AreHeld};
ghost use Rattle.period_core.specs.Weighing as weighing;
ghost use Rattle.consensus_terms.specs.declared.flavour.Flavour.TheVariants as flavour;

use crate::state::PeriodState;
use crate::weighing::Weighed;
use consensus_terms::{Flavour, SignatureLine};
use dir_values::Fingerprint;
use key_port::Verifier;
use period_terms::{ChangeKind, CheckedSig, ShortBytes, SignIn};
use vote_doc::Accepted;

/// Whether a held vote has this authority and this signing key.
pub(crate) fn has_key(held: &Accepted, authority: &Fingerprint, key: &[u8]) -> bool
    ensures { result ≡ states.has_key held.now.votes authority.now key.now }
{
    'votes: for i in 0..held.len() {
        let vote = held.vote(i).vote();
        if vote.identity().is_same(authority) && vote.certificate().signing_key.as_bytes() == key {
            return true;
        }
    }
    false
}

impl<V: Verifier> PeriodState<V> {
    /// Holds a signature of the ns flavour over a digest, of a member of whom none is held.
    fn hold_ns(&mut self, line: SignatureLine, digest: ShortBytes)
        requires member { has_member self.old.roster line.identity ≡ true }
        requires none { states.has_line self.old.ns_lines line.identity ≡ false }
        requires size { length digest ≡ 20 }
        ensures { self.new ≡ weighing.with_signed flavour.Ns line digest self.old }
    {
        let change = self.change(ChangeKind::Signature, Some(line.identity), digest);
        self.ns_lines.push_reserved(line);
        self.log.add(change);
    }

    /// Holds a signature of the microdesc flavour over a digest, of a member of whom none is held.
    fn hold_micro(&mut self, line: SignatureLine, digest: ShortBytes)
        requires member { has_member self.old.roster line.identity ≡ true }
        requires none { states.has_line self.old.micro_lines line.identity ≡ false }
        requires size { length digest ≡ 32 }
        ensures { self.new ≡ weighing.with_signed flavour.Microdesc line digest self.old }
    {
        let change = self.change(ChangeKind::Signature, Some(line.identity), digest);
        self.micro_lines.push_reserved(line);
        self.log.add(change);
    }

    /// Holds a signature of a member of whom none is held.
    fn hold(&mut self, sig: CheckedSig<V>)
        requires member { has_member self.old.roster sig.authority ≡ true }
        requires none { states.has_line (states.lines_of sig.flavour self.old) sig.authority ≡ false }
        requires size { length sig.digest ≡ weighing.digest_size sig.flavour }
        ensures state { self.new ≡ (sign_ins.keep_signature self.old sig).after }
        ensures front { self.new.front ≡ self.old.front + 1 }
    {
        let flavour = sig.flavour();
        let (line, digest) = sig.into_parts();
        match flavour {
            Flavour::Ns => self.hold_ns(line, digest),
            Flavour::Microdesc => self.hold_micro(line, digest),
        }
    }

    /// Whether the roster has each authority whose vote is held.
    fn know_members(&self)
        ensures { AreHeld self.now.roster self.now.votes }
    {
        let _ = &self.roster;
    }

    /// Offers a signature. It takes no memory.
    pub fn sign_in(&mut self, sig: CheckedSig<V>) -> SignIn
        ensures answer { result ≡ (sign_ins.sign_in self.old sig).answer }
        ensures state { self.new ≡ (sign_ins.sign_in self.old sig).after }
    {
        self.know_members();
        match self.weigh(&sig) {
            Weighed::Refused(answer) => answer,
            Weighed::Fits => {
                self.hold(sig);
                SignIn::Kept {
                    position: self.front(),
                }
            }
        }
    }
}
