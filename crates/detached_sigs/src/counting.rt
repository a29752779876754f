// How many authorities signed a digest.
ghost use Rattle.std.specs.Prelude.{◌≡◌, ◌≤◌, ◌<◌, IfOk, OnErr, IsErr, length, AllPairs};
ghost use Rattle.dir_bytes.specs.Causes.{Rose};
ghost use Rattle.key_port.specs.Answers.{rules, CountsAnswers};
ghost use Rattle.sha1.specs.Sha1.{sha1};
ghost use Rattle.detached_sigs.specs.Signers as signers;
ghost use Rattle.detached_sigs.specs.{Signers.{AreApart, CountsSigners, SignsBy, SignsLine}, Questions.AsksOfLine};
ghost use Rattle.detached_sigs.specs.Questions.{AsksOfKey, AsksOfKeys, FailsAtKey};

use crate::key::SignerKey;
use consensus_terms::SignatureLine;
use key_port::{KeyKind, Verifier, VerifyAnswer};
use sha1::Sha1;

/// The verifier failed, and nothing is known.
#[derive(Clone, Copy)]
pub struct VerifierFault;

/// Whether a line names the key's authority and digest.
fn is_line_of(key: &SignerKey, name: &[u8; 20], line: &SignatureLine) -> bool
    requires { name.now ≡ sha1 key.now.key }
    ensures { result ≡ signers.is_line_of key.now line.now }
{
    line.identity.is_same(&key.authority) && line.key_digest.0 == *name
}

/// Whether a line is the key's and its signature over the digest is right. `name` is the key's digest. Of a line of another
/// key the verifier is not asked.
fn is_signed_by<V: Verifier>(
    digest: &[u8],
    key: &SignerKey,
    name: &[u8; 20],
    line: &SignatureLine,
    verifier: &mut V,
) -> VerifyAnswer
    requires { name.now ≡ sha1 key.now.key }
    ensures answer { SignsLine (rules V.may_accept V.may_refuse) digest.now line.now key.now result }
    ensures cause { CountsAnswers (V.faults verifier.old) (V.faults verifier.new) result }
    ensures asked { AsksOfLine V.steps digest.now key.now line.now verifier.old result verifier.new }
{
    if !is_line_of(key, name, line) {
        return VerifyAnswer::No;
    }
    let signature = line.signature.as_bytes();
    verifier.verify(KeyKind::Signing, key.key.as_bytes(), digest, signature)
}

/// Whether a key has a line whose signature over the digest is right: the verifier is asked of its lines, in their order, until it
/// does not refuse one. Takes no memory.
pub fn signs<V: Verifier>(
    digest: &[u8],
    key: &SignerKey,
    lines: &[SignatureLine],
    verifier: &mut V,
) -> VerifyAnswer
    ensures answer { SignsBy (rules V.may_accept V.may_refuse) digest.now lines.now key.now result }
    ensures cause { CountsAnswers (V.faults verifier.old) (V.faults verifier.new) result }
    ensures asked { AsksOfKey V.steps digest.now lines.now key.now verifier.old result verifier.new }
{
    let name = Sha1::digest(key.key.as_bytes());
    'lines: for line in lines {
        match is_signed_by(digest, key, &name, line, verifier) {
            VerifyAnswer::Yes => return VerifyAnswer::Yes,
            VerifyAnswer::No => (),
            VerifyAnswer::Fault => return VerifyAnswer::Fault,
        }
    }
    VerifyAnswer::No
}

/// How many of the keys have a line whose signature over the digest is right, however many lines they have. The verifier is asked
/// of key after key. Takes no memory.
///
/// # Errors
/// `VerifierFault` only where the verifier's count of faults rose, and wherever it is greater.
pub fn counted<V: Verifier>(
    digest: &[u8],
    keys: &[SignerKey],
    lines: &[SignatureLine],
    verifier: &mut V,
) -> Result<u32, VerifierFault>
    requires few { length keys.now ≤ 32 }
    requires apart { AllPairs AreApart keys.now }
    ensures counted { IfOk result (λ count. CountsSigners (rules V.may_accept V.may_refuse) digest.now keys.now lines.now count) }
    ensures fault { OnErr result (Rose (V.faults verifier.old) (V.faults verifier.new)) }
    ensures faults { V.faults verifier.old ≤ V.faults verifier.new }
    ensures told { V.faults verifier.old < V.faults verifier.new → IsErr result }
    ensures asked { IfOk result (λ _. AsksOfKeys V.steps digest.now lines.now keys.now verifier.old verifier.new) }
    ensures failed { OnErr result (FailsAtKey V.steps digest.now lines.now keys.now verifier.old verifier.new) }
{
    let mut count = 0;
    'keys: for key in keys {
        match signs(digest, key, lines, verifier) {
            VerifyAnswer::Yes => count += 1,
            VerifyAnswer::No => (),
            VerifyAnswer::Fault => return Err(VerifierFault),
        }
    }
    Ok(count)
}
