// Which authorities signed a digest.
ghost use Rattle.std.specs.Prelude.{◌≡◌, ◌≤◌, ◌<◌, IfOk, OnErr, IsErr, AllPairs};
ghost use Rattle.dir_bytes.specs.Causes.{Rose};
ghost use Rattle.key_port.specs.Answers.{rules};
ghost use Rattle.detached_sigs.specs.Signers.{AreApart, AreSigners};

use crate::counting::{VerifierFault, signs};
use crate::key::SignerKey;
use consensus_terms::SignatureLine;
use key_port::{Verifier, VerifyAnswer};

/// Those of the keys that have a line whose signature over the digest is right, in their order. Takes no memory.
///
/// # Errors
/// `VerifierFault` only where the verifier's count of faults rose, and wherever it is greater.
pub fn signers_among<V: Verifier>(
    digest: &[u8],
    keys: Vec<SignerKey>,
    lines: &[SignatureLine],
    verifier: &mut V,
) -> Result<Vec<SignerKey>, VerifierFault>
    requires apart { AllPairs AreApart keys.items }
    ensures signers { IfOk result (λ found. AreSigners (rules V.may_accept V.may_refuse) digest.now keys.items lines.now found.items) }
    ensures fault { OnErr result (Rose (V.faults verifier.old) (V.faults verifier.new)) }
    ensures faults { V.faults verifier.old ≤ V.faults verifier.new }
    ensures told { V.faults verifier.old < V.faults verifier.new → IsErr result }
{
    let mut found = keys;
    let mut number = 0;
    'keys: while number < found.len() {
        match signs(digest, &found[number], lines, verifier) {
            VerifyAnswer::Yes => number += 1,
            VerifyAnswer::No => {
                found.remove(number);
            }
            VerifyAnswer::Fault => return Err(VerifierFault),
        }
    }
    Ok(found)
}
