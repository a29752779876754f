// The text of a vote of a rehearsal.
ghost use Rattle.std.specs.Prelude.{◌≡◌, ◌++◌, IfOk, OnOk};
ghost use Rattle.vote_text.specs.Made.{signature_rest};
ghost use Rattle.vote_rehearsal.specs.Certificates.{certificate_of};
ghost use Rattle.vote_rehearsal.specs.Votes as votes;

use crate::authority::Authority;
use crate::certificate::certificate_of;
use crate::facts::facts_of;
use crate::relay::Relay;
use crate::sure_keys::signature_by;
use dir_bytes::{Memory, Text, push_hex_upper};
use dirdoc_grammar::push_object;
use key_port::KeyKind;
use sha1::Sha1;
use sha2::Digest;
use std::alloc::Global;
use vote_text::write_signed;

/// Appends what follows the text that is signed: who signed, and the signature. The algorithm is not named.
#[tactic(auto, unfolding(crate::specs::Certificates::certificate_of))]
fn push_signature(out: &mut Vec<u8>, authority: &Authority, signature: &Text) -> Result<(), Memory>
    ensures { OnOk result (out.new.items ≡ out.old.items ++ signature_rest (votes.signature_by (certificate_of authority.now) signature.now)) }
{
    let key_digest = Sha1::digest(authority.signing_key.as_bytes());
    push_hex_upper(out, &authority.identity.0)?;
    out.push(b' ')?;
    push_hex_upper(out, &key_digest)?;
    out.push(b'\n')?;
    push_object(out, b"SIGNATURE", signature.as_bytes())?;
    Ok(())
}

/// The text of the vote of an authority that is signed.
#[tactic(auto, unfolding(crate::specs::Votes::signed_text))]
fn signed_text(alloc: Global, relays: &[Relay], authority: &Authority) -> Result<Vec<u8>, Memory>
    ensures { IfOk result (λ text. text.items ≡ votes.signed_text relays.now authority.now) }
{
    let (certificate, bytes) = certificate_of(alloc, authority)?;
    let facts = facts_of(alloc, relays, authority, certificate)?;
    write_signed(alloc, &facts, &bytes)
}

/// The text of the vote of an authority, signed by the test scheme.
///
/// # Errors
/// `Memory` is want of memory.
#[tactic(auto, unfolding(crate::specs::Votes::vote_text))]
pub(crate) fn vote_text(
    alloc: Global,
    relays: &[Relay],
    authority: &Authority,
) -> Result<Vec<u8>, Memory>
    ensures { IfOk result (λ text. text.items ≡ votes.vote_text relays.now authority.now) }
{
    let mut text = signed_text(alloc, relays, authority)?;
    let digest = Sha1::digest(&text);
    let key = authority.signing_key.as_bytes();
    let signature = signature_by(alloc, KeyKind::Signing, key, &digest)?;
    push_signature(&mut text, authority, &signature)?;
    Ok(text)
}
