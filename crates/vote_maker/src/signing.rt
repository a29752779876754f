// Signing what the vote says.
ghost use Rattle.std.specs.Prelude.{◌≡◌, ◌≤◌, ◌<◌, ◌++◌, Err, IfOk, IfErr, OnOk, length};
ghost use Rattle.dir_bytes.specs.Causes.{Rose};
ghost use Rattle.vote_text.specs.Made as text_of;
ghost use Rattle.vote_maker.specs.{Made.signature_by, Private.{IsSignedText, RefusesToSign}};
ghost use Rattle.vote_terms.specs.Votes.{max_vote};

use crate::refusal::MakeRefusal;
use authority_certs::Cert;
use dir_bytes::{Memory, Text, push_hex_upper};
use dirdoc_grammar::push_object;
use key_port::{KeyKind, SignAnswer, Signer};
use sha1::Sha1;
use sha2::Digest;
use std::alloc::Global;
use vote_terms::MAX_VOTE;

/// Appends what follows the text that is signed: who signed, as the certificate says, and the signature. The
/// algorithm is not named.
///
/// # Errors
/// `Memory` is want of memory.
fn push_signature(out: &mut Vec<u8>, cert: &Cert, signature: &Text) -> Result<(), Memory>
    ensures { OnOk result (out.new.items ≡ out.old.items ++ text_of.signature_rest (signature_by cert.now signature.now)) }
{
    let key_digest = Sha1::digest(cert.signing_key.as_bytes());
    push_hex_upper(out, &cert.fingerprint.0)?;
    out.push(b' ')?;
    push_hex_upper(out, &key_digest)?;
    out.push(b'\n')?;
    push_object(out, b"SIGNATURE", signature.as_bytes())?;
    Ok(())
}

/// The text, unless it is longer than a vote may be.
///
/// # Errors
/// `TooLong` where it is, with its length.
fn if_fits(text: Vec<u8>) -> Result<Vec<u8>, MakeRefusal>
    ensures fits { IfOk result (λ same. (same ≡ text) × (length text.items ≤ max_vote)) }
    ensures too_long { IfErr result (λ refusal. (refusal ≡ MakeRefusal.TooLong (length text.items)) × (max_vote < length text.items)) }
{
    let length = text.len() as u64;
    if length > MAX_VOTE {
        return Err(MakeRefusal::TooLong { length });
    }
    Ok(text)
}

/// The text, signed by the signer with the certificate's signing key over its SHA-1. The signer is asked once.
///
/// # Errors
/// `SignerFault` only where the signer's count of faults rose, and wherever it is greater; `TooLong` exactly where
/// the signed text is longer than a vote may be; `Memory` is want of memory, before the signer is asked or behind that.
pub(crate) fn signed_vote<N: Signer>(
    alloc: Global,
    text: Vec<u8>,
    cert: &Cert,
    signer: &mut N,
) -> Result<Vec<u8>, MakeRefusal>
    ensures signed { IfOk result (λ whole. IsSignedText N.may_give N.steps cert.now text.items whole.items signer.old signer.new) }
    ensures fits { IfOk result (λ whole. length whole.items ≤ max_vote) }
    ensures refused { IfErr result (λ refusal. RefusesToSign N.may_give N.steps cert.now text.items refusal signer.old signer.new) }
    ensures fault { IfErr result (λ refusal. refusal ≡ MakeRefusal.SignerFault → Rose (N.faults signer.old) (N.faults signer.new)) }
    ensures faults { N.faults signer.old ≤ N.faults signer.new }
    ensures told { N.faults signer.old < N.faults signer.new → result ≡ Err MakeRefusal.SignerFault }
{
    let digest = Sha1::digest(text.as_slice());
    let key = cert.signing_key.as_bytes();
    match signer.sign(alloc, KeyKind::Signing, key, &digest) {
        SignAnswer::Signed(signature) => {
            let mut whole = text;
            push_signature(&mut whole, cert, &signature)?;
            if_fits(whole)
        }
        SignAnswer::Fault => Err(MakeRefusal::SignerFault),
        SignAnswer::Memory => Err(MakeRefusal::Memory),
    }
}
