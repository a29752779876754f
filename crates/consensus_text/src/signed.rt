// The signatures of a consensus: what they are over, and the text with them.
ghost use Rattle.std.specs.{Prelude.{◌≡◌, ◌++◌, IfOk, OnOk, OnErr, take, vec_len}, Ordering.is_lt};
ghost use Rattle.consensus_terms.specs.Signed as signed;
ghost use Rattle.consensus_text.specs.Private as own;

use consensus_terms::{Digests, SignatureLine};
use dir_bytes::{Memory, push_hex_upper};
use dir_values::{Digest1, Digest2};
use dirdoc_grammar::{push_line, push_object};
use sha1::Sha1;
use sha2::{Digest, Sha256};
use std::alloc::Global;
use std::cmp::Ordering;

/// The digests of the signed part of a consensus, which is its text without signatures and the word
/// `directory-signature` with one space.
pub fn digests(text: &[u8]) -> Digests
    ensures { result ≡ signed.digests_of text.now }
{
    let mut sha1 = Sha1::new();
    sha1.update(text);
    sha1.update(b"directory-signature ");
    let mut sha256 = Sha256::new();
    sha256.update(text);
    sha256.update(b"directory-signature ");
    Digests {
        sha1: Digest1(sha1.finalize()),
        sha256: Digest2(sha256.finalize()),
    }
}

/// Copies of lines.
///
/// # Errors
/// `Memory` is want of memory.
fn copies_of(alloc: Global, lines: &[SignatureLine]) -> Result<Vec<SignatureLine>, Memory>
    ensures { IfOk result (λ copies. copies.items ≡ lines.now) }
{
    let mut copies = Vec::with_capacity(alloc, lines.len())?;
    'lines: for line in lines {
        copies.push(line.copy(alloc)?)?;
    }
    Ok(copies)
}

/// How two lines compare by their identities.
#[tactic(auto, using(crate::proofs::Signatures::identities))]
fn compare(line: &SignatureLine, other: &SignatureLine) -> Ordering
    ensures { is_lt result ≡ own.stands_before line.now other.now }
{
    line.identity.0.as_slice().cmp(other.identity.0.as_slice())
}

/// The lines ascending by identity, those of one identity in their order.
///
/// # Errors
/// `Memory` is want of memory.
fn in_order(alloc: Global, lines: &[SignatureLine]) -> Result<Vec<SignatureLine>, Memory>
    ensures { IfOk result (λ ordered. ordered.items ≡ signed.in_order lines.now) }
{
    let mut ordered = copies_of(alloc, lines)?;
    ordered.sort_by(
        |line: &SignatureLine, other: &SignatureLine| -> Ordering
            ensures { is_lt result ≡ own.stands_before line.now other.now }
        { compare(line, other) },
    )?;
    Ok(ordered)
}

/// The name of an algorithm and a space; SHA-1 is not named.
fn push_algorithm(rest: &mut Vec<u8>, name: &[u8]) -> Result<(), Memory>
    ensures ok { OnOk result (rest.new.items ≡ rest.old.items ++ signed.algorithm_text name.now) }
    ensures err { OnErr result (take (vec_len rest.old) rest.new.items ≡ rest.old.items) }
{
    if name != b"sha1".as_slice() {
        rest.extend_from_slice(name)?;
        rest.push(b' ')?;
    }
    Ok(())
}

/// By whom a consensus is signed, and with which key.
fn push_signer(rest: &mut Vec<u8>, line: &SignatureLine) -> Result<(), Memory>
    ensures ok { OnOk result (rest.new.items ≡ rest.old.items ++ signed.signer_text line.now) }
    ensures err { OnErr result (take (vec_len rest.old) rest.new.items ≡ rest.old.items) }
{
    push_algorithm(rest, line.algorithm.as_bytes())?;
    push_hex_upper(rest, &line.identity.0)?;
    rest.push(b' ')?;
    push_hex_upper(rest, &line.key_digest.0)
}

/// A signature.
#[tactic(auto, using(crate::proofs::Joined::texts), unfolding(consensus_terms::specs::Signed::signature_text))]
fn push_signature(out: &mut Vec<u8>, alloc: Global, line: &SignatureLine) -> Result<(), Memory>
    ensures ok { OnOk result (out.new.items ≡ out.old.items ++ signed.signature_text line.now) }
    ensures err { OnErr result (take (vec_len out.old) out.new.items ≡ out.old.items) }
{
    let mut rest = Vec::new(alloc);
    push_signer(&mut rest, line)?;
    push_line(out, b"directory-signature", &rest)?;
    push_object(out, b"SIGNATURE", line.signature.as_bytes())?;
    Ok(())
}

/// Signatures, in this order.
fn push_signatures(out: &mut Vec<u8>, alloc: Global, lines: &[SignatureLine]) -> Result<(), Memory>
    ensures ok { OnOk result (out.new.items ≡ out.old.items ++ signed.signature_texts lines.now) }
    ensures err { OnErr result (take (vec_len out.old) out.new.items ≡ out.old.items) }
{
    'lines: for line in lines {
        push_signature(out, alloc, line)?;
    }
    Ok(())
}

/// A text without signatures with signatures behind it, ascending by identity, those of one identity in their order. `sha1`
/// is not named.
///
/// # Errors
/// `Memory` is want of memory.
pub fn write_signed(
    alloc: Global,
    text: &[u8],
    signatures: &[SignatureLine],
) -> Result<Vec<u8>, Memory>
    ensures { IfOk result (λ out. out.items ≡ signed.signed text.now signatures.now) }
{
    let ordered = in_order(alloc, signatures)?;
    let mut out = Vec::from_slice(alloc, text)?;
    push_signatures(&mut out, alloc, &ordered)?;
    Ok(out)
}
