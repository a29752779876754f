// Who signed a consensus.
ghost use Rattle.std.specs.Prelude.{◌≡◌, ◌≢◌, ◌≤◌, ◌<◌, ◌++◌, [], ◌∷◌, Err, IfOk, OnOk, MatchResult};
ghost use Rattle.dir_bytes.specs.Causes.{Rose};
ghost use Rattle.key_port.specs.Answers.{rules};
ghost use Rattle.mirror_core.specs.Signers as signers;
ghost use Rattle.mirror_core.specs.{Signers.AreSignersOf, Sound.CertsAscend, Lending.IsNoSigning};

use crate::cert::{HeldCert, keys_of};
use crate::refusal::MirrorRefusal;
use consensus_terms::{SignatureLine, SignedConsensus};
use detached_sigs::{SignerKey, signers_among};
use dir_bytes::Memory;
use frame_values::between;
use key_port::Verifier;
use sha2::{Digest, Sha256};
use std::alloc::Global;

/// Adds a copy of a line whose signature is over a SHA-256.
fn push_sha256(
    alloc: Global,
    found: &mut Vec<SignatureLine>,
    line: &SignatureLine,
) -> Result<(), Memory>
    ensures { OnOk result (found.new.items ≡ found.old.items ++ signers.sha256_lines (line.now ∷ [])) }
{
    if line.algorithm.as_bytes() != b"sha256".as_slice() {
        return Ok(());
    }
    found.push(line.copy(alloc)?)?;
    Ok(())
}

/// Copies of the lines whose signatures are over a SHA-256.
fn sha256_lines(alloc: Global, lines: &[SignatureLine]) -> Result<Vec<SignatureLine>, Memory>
    ensures { IfOk result (λ found. found.items ≡ signers.sha256_lines lines.now) }
{
    let mut found = Vec::new(alloc);
    'lines: for line in lines {
        push_sha256(alloc, &mut found, line)?;
    }
    Ok(found)
}

/// Those of the authorities of certificates that signed a consensus, which was read from these bytes. None, for which the
/// verifier is not asked, where it has no signed part.
pub(crate) fn signers_of<V: Verifier>(
    alloc: Global,
    certs: &[HeldCert],
    consensus: &SignedConsensus,
    bytes: &[u8],
    verifier: &mut V,
) -> Result<Vec<SignerKey>, MirrorRefusal>
    requires { CertsAscend certs.now }
    ensures signers { IfOk result (λ found. AreSignersOf (rules V.may_accept V.may_refuse) (signers.keys_of certs.now) bytes.now consensus.now found.items) }
    ensures fault { result ≡ Err MirrorRefusal.VerifierFault → Rose (V.faults verifier.old) (V.faults verifier.new) }
    ensures faults { V.faults verifier.old ≤ V.faults verifier.new }
    ensures told { V.faults verifier.old < V.faults verifier.new → result ≡ Err MirrorRefusal.VerifierFault }
    ensures only { MatchResult result (λ _. Unit {0}) IsNoSigning }
{
    let Some((begin, end)) = consensus.signed else {
        return Ok(Vec::new(alloc));
    };
    let digest: [u8; 32] = Sha256::digest(between(bytes, begin, end));
    let Ok(lines) = sha256_lines(alloc, consensus.signatures.as_slice()) else {
        return Err(MirrorRefusal::Memory);
    };
    let Ok(keys) = keys_of(alloc, certs) else {
        return Err(MirrorRefusal::Memory);
    };
    match signers_among(&digest, keys, &lines, verifier) {
        Ok(found) => Ok(found),
        Err(_) => Err(MirrorRefusal::VerifierFault),
    }
}
