// The authority's own signatures.
ghost use Rattle.std.specs.Prelude.{◌≡◌, ◌≤◌, ◌<◌, length, Err};
ghost use Rattle.dir_bytes.specs.Causes.{Rose};
ghost use Rattle.key_port.specs.Answers.{rules};
ghost use Rattle.period_core.specs.Signing.{SignsOne, SignsBoth};

use crate::made::Made;
use dir_bytes::Text;
use key_port::{KeyKind, SignAnswer, Signer, Verifier, VerifyAnswer};
use period_terms::ShortBytes;
use std::alloc::Global;

/// Why nothing is signed.
#[derive(Drop)]
pub enum Unsigned {
    /// The signer failed.
    SignerFails,
    /// The verifier failed.
    VerifierFails,
    /// The signature over this digest was refused.
    Refused(ShortBytes),
    /// There was no memory.
    Memory,
}

/// Signs a digest and verifies the signature.
fn sign_one<V: Verifier, N: Signer>(
    alloc: Global,
    key: &[u8],
    digest: &[u8],
    signer: &mut N,
    verifier: &mut V,
) -> Result<Text, Unsigned>
    requires { length digest.now ≤ 52 }
    ensures signs { SignsOne N.may_give (rules V.may_accept V.may_refuse) key.now digest.now result }
    ensures signer_fault { result ≡ Err Unsigned.SignerFails → Rose (N.faults signer.old) (N.faults signer.new) }
    ensures signer_faults { N.faults signer.old ≤ N.faults signer.new }
    ensures verifier_fault { result ≡ Err Unsigned.VerifierFails → Rose (V.faults verifier.old) (V.faults verifier.new) }
    ensures verifier_faults { V.faults verifier.old ≤ V.faults verifier.new }
{
    let bytes = match signer.sign(alloc, KeyKind::Signing, key, digest) {
        SignAnswer::Signed(bytes) => bytes,
        SignAnswer::Fault => return Err(Unsigned::SignerFails),
        SignAnswer::Memory => return Err(Unsigned::Memory),
    };
    match verifier.verify(KeyKind::Signing, key, digest, bytes.as_bytes()) {
        VerifyAnswer::Yes => Ok(bytes),
        VerifyAnswer::No => Err(Unsigned::Refused(ShortBytes::of(digest))),
        VerifyAnswer::Fault => Err(Unsigned::VerifierFails),
    }
}

/// Signs the digests of both flavours, ns first.
pub(crate) fn sign_both<V: Verifier, N: Signer>(
    alloc: Global,
    key: &[u8],
    made: &Made,
    signer: &mut N,
    verifier: &mut V,
) -> Result<(Text, Text), Unsigned>
    ensures signs { SignsBoth N.may_give (rules V.may_accept V.may_refuse) key.now made.now result }
    ensures signer_fault { result ≡ Err Unsigned.SignerFails → Rose (N.faults signer.old) (N.faults signer.new) }
    ensures signer_faults { N.faults signer.old ≤ N.faults signer.new }
    ensures verifier_fault { result ≡ Err Unsigned.VerifierFails → Rose (V.faults verifier.old) (V.faults verifier.new) }
    ensures verifier_faults { V.faults verifier.old ≤ V.faults verifier.new }
{
    let ns = sign_one(alloc, key, made.sha1(), signer, verifier)?;
    let microdesc = sign_one(alloc, key, made.sha256(), signer, verifier)?;
    Ok((ns, microdesc))
}
