// The authority's own signing.
ghost use Rattle.std.specs.Prelude.{◌≡◌, ◌≤◌, ◌<◌, Ok, Err, IfOk, option_map, length};
ghost use Rattle.dir_bytes.specs.Causes.{Rose};
ghost use Rattle.key_port.specs.Answers.{rules};
ghost use Rattle.period_terms.specs.Advances as advances;
ghost use Rattle.period_terms.specs.States as states;
ghost use Rattle.period_core.specs.Owning.{OwnGives, IsSignerFault, IsVerifierFault};
ghost use Rattle.consensus_terms.specs.declared.flavour.Flavour.TheVariants as flavour;
ghost use Rattle.period_terms.specs.declared.stage.Stage.TheVariants as stage;

use crate::signing::{Unsigned, sign_both};
use crate::state::PeriodState;
use consensus_terms::{Flavour, SignatureLine};
use dir_bytes::{Memory, Text};
use dir_values::Fingerprint;
use key_port::{Signer, Verifier};
use period_terms::{Advance, ShortBytes, own_line};
use std::alloc::Global;

/// What comes of the authority's own signing.
#[derive(Drop)]
pub enum Own {
    /// All stays, and this is answered.
    Stays(Advance),
    /// It holds no vote of its own.
    NoVote,
    /// These are its signatures, over these digests.
    Gave(SignatureLine, SignatureLine, ShortBytes),
    /// There was no memory.
    Memory,
}

impl<V: Verifier> PeriodState<V> {
    /// The signing key of its own vote, if that is held.
    fn own_key(&self) -> Option<&[u8]>
        ensures { option_map (λ r. r.now) result ≡ option_map (λ vote. vote.says.certificate.signing_key) (states.vote_of self.now.votes self.now.own) }
    {
        match self.held.vote_of(&self.own) {
            Some(held) => Some(held.vote().certificate().signing_key.as_bytes()),
            None => None,
        }
    }

    /// What comes of signing what is computed with its own key.
    pub(crate) fn own_signing<N: Signer>(
        &self,
        alloc: Global,
        signer: &mut N,
        verifier: &mut V,
    ) -> Own
        requires { self.now.stage ≡ stage.Computed }
        ensures gives { OwnGives N.may_give (rules V.may_accept V.may_refuse) self.now result }
        ensures signer_fault { IsSignerFault result → Rose (N.faults signer.old) (N.faults signer.new) }
        ensures signer_faults { N.faults signer.old ≤ N.faults signer.new }
        ensures verifier_fault { IsVerifierFault result → Rose (V.faults verifier.old) (V.faults verifier.new) }
        ensures verifier_faults { V.faults verifier.old ≤ V.faults verifier.new }
    {
        let Some(made) = self.computed() else {
            return Own::Stays(Advance::Nothing);
        };
        let Some(key) = self.own_key() else {
            return Own::NoVote;
        };
        match sign_both(alloc, key, made, signer, verifier) {
            Ok((ns, microdesc)) => match own_lines(alloc, self.own(), key, ns, microdesc) {
                Ok((ns, microdesc)) => Own::Gave(
                    ns,
                    microdesc,
                    ShortBytes::of_two(made.sha1(), made.sha256()),
                ),
                Err(_) => Own::Memory,
            },
            Err(Unsigned::SignerFails) => Own::Stays(Advance::SignerFault),
            Err(Unsigned::VerifierFails) => Own::Stays(Advance::VerifierFault),
            Err(Unsigned::Refused(digest)) => Own::Stays(Advance::OwnSignatureRefused { digest }),
            Err(Unsigned::Memory) => Own::Memory,
        }
    }
}

/// The signatures of an authority over both flavours.
fn own_lines(
    alloc: Global,
    identity: Fingerprint,
    key: &[u8],
    ns: Text,
    microdesc: Text,
) -> Result<(SignatureLine, SignatureLine), Memory>
    ensures { IfOk result (λ lines. (lines.0 ≡ advances.own_line flavour.Ns identity key.now ns) × (lines.1 ≡ advances.own_line flavour.Microdesc identity key.now microdesc)) }
{
    let ns = own_line(alloc, Flavour::Ns, identity, key, ns)?;
    let microdesc = own_line(alloc, Flavour::Microdesc, identity, key, microdesc)?;
    Ok((ns, microdesc))
}
