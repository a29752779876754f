// What a line of detached signatures is over, and whose key it names.
ghost use Rattle.std.specs.Prelude.{◌≡◌, ◌≤◌, IfSome, length, option_map, true};
ghost use Rattle.sha1.specs.Sha1.{sha1};
ghost use Rattle.detached_sigs.specs.Signers.{is_line_of};
ghost use Rattle.period_terms.specs.Advances.{algorithm_of};
ghost use Rattle.checked_sigs.specs.Asking as asking;

use consensus_terms::{Flavour, SignatureLine};
use detached_doc::{AdditionalDigest, Detached, DetachedLine};
use detached_sigs::SignerKey;
use sha1::Sha1;

/// The flavour that a line is over, if it is known and the line's algorithm is the flavour's.
pub(crate) fn flavour_of(line: &DetachedLine) -> Option<Flavour>
    ensures flavour { result ≡ asking.flavour_of line.now }
    ensures algorithm { IfSome result (λ flavour. line.now.line.algorithm ≡ algorithm_of flavour) }
{
    let algorithm = line.line.algorithm.as_bytes();
    match &line.flavour {
        None => {
            if algorithm == b"sha1".as_slice() {
                Some(Flavour::Ns)
            } else {
                None
            }
        }
        Some(name) => {
            if name.as_bytes() == b"microdesc".as_slice() && algorithm == b"sha256".as_slice() {
                Some(Flavour::Microdesc)
            } else {
                None
            }
        }
    }
}

/// Whether a digest is a SHA-256 of the microdesc flavour.
fn is_micro(digest: &AdditionalDigest) -> bool
    ensures { result ≡ asking.is_micro digest.now }
{
    digest.flavour.as_bytes() == b"microdesc".as_slice()
        && digest.algorithm.as_bytes() == b"sha256".as_slice()
        && digest.digest.len() == 32
}

/// The first SHA-256 of the microdesc flavour.
fn micro_digest(digests: &[AdditionalDigest]) -> Option<&[u8]>
    ensures digest { option_map (λ text. text.now) result ≡ asking.micro_digest digests.now }
    ensures short { IfSome result (λ text. length text.now ≤ 52) }
{
    'digests: for digest in digests {
        if is_micro(digest) {
            return Some(digest.digest.as_bytes());
        }
    }
    None
}

/// The document's own digest of a flavour, where it has one.
pub(crate) fn digest_over(detached: &Detached, flavour: Flavour) -> Option<&[u8]>
    ensures digest { option_map (λ text. text.now) result ≡ asking.digest_over detached.now flavour }
    ensures short { IfSome result (λ text. length text.now ≤ 52) }
{
    match flavour {
        Flavour::Ns => Some(&detached.ns.0),
        Flavour::Microdesc => micro_digest(detached.additional.as_slice()),
    }
}

/// Whether a line names a key's authority and the digest of its bytes.
fn is_line(key: &SignerKey, line: &SignatureLine) -> bool
    ensures value { result ≡ is_line_of key.now line.now }
    ensures named { result ≡ true → line.now.key_digest.0 ≡ sha1 key.now.key }
{
    line.identity.is_same(&key.authority) && line.key_digest.0 == Sha1::digest(key.key.as_bytes())
}

/// The first key that a line names.
pub(crate) fn key_of<'a>(keys: &'a [SignerKey], line: &SignatureLine) -> Option<&'a SignerKey>
    ensures key { option_map (λ key. key.now) result ≡ asking.key_of keys.now line.now }
    ensures named { IfSome result (λ key. line.now.key_digest.0 ≡ sha1 key.now.key) }
{
    'keys: for key in keys {
        if is_line(key, line) {
            return Some(key);
        }
    }
    None
}
