// The certificate of an authority of a rehearsal, signed by the test scheme.
ghost use Rattle.std.specs.Prelude.{◌≡◌, ◌++◌, IfOk, OnOk};
ghost use Rattle.dir_bytes.specs.FieldTexts.{hex_text};
ghost use Rattle.dirdoc_grammar.specs.Writing.{item_text, items_text};
ghost use Rattle.frame_values.specs.Items.{bare};
ghost use Rattle.vote_rehearsal.specs.Certificates as terms;

use crate::authority::Authority;
use crate::sure_keys::signature_by;
use authority_certs::Cert;
use dir_bytes::{Memory, Text, push_hex_upper};
use dir_values::{Digest1, Fingerprint};
use dirdoc_grammar::push_object;
use frame_terms::Keyword;
use frame_values::{push_bare, push_timed, push_with_object};
use key_port::KeyKind;
use sha1::Sha1;
use sha2::Digest;
use std::alloc::Global;

/// 2025-12-01 00:00:00 UTC, in seconds since 1970-01-01 00:00:00 UTC.
const PUBLISHED: u64 = 1_764_547_200;

/// 2026-12-01 00:00:00 UTC, in seconds since 1970-01-01 00:00:00 UTC.
const EXPIRES: u64 = 1_796_083_200;

/// Appends the item that says whose a certificate is.
fn push_identity(out: &mut Vec<u8>, alloc: Global, identity: Fingerprint) -> Result<(), Memory>
    ensures { OnOk result (out.new.items ≡ out.old.items ++ item_text (bare Keyword.Fingerprint (hex_text identity.0))) }
{
    let mut rest = Vec::new(alloc);
    push_hex_upper(&mut rest, &identity.0)?;
    push_bare(out, Keyword::Fingerprint, &rest)
}

/// Appends whose certificate it is.
fn push_holder(out: &mut Vec<u8>, alloc: Global, authority: &Authority) -> Result<(), Memory>
    ensures { OnOk result (out.new.items ≡ out.old.items ++ items_text (terms.holder_items authority.now)) }
{
    push_bare(out, Keyword::DirKeyCertificateVersion, b"3")?;
    push_identity(out, alloc, authority.identity)?;
    Ok(())
}

/// Appends its keys and its times.
fn push_keys(out: &mut Vec<u8>, alloc: Global, authority: &Authority) -> Result<(), Memory>
    ensures { OnOk result (out.new.items ≡ out.old.items ++ items_text (terms.key_items authority.now)) }
{
    let words = b"RSA PUBLIC KEY";
    push_with_object(
        out,
        Keyword::DirIdentityKey,
        b"",
        words,
        &authority.identity_key,
    )?;
    push_timed(out, alloc, Keyword::DirKeyPublished, PUBLISHED)?;
    push_timed(out, alloc, Keyword::DirKeyExpires, EXPIRES)?;
    push_with_object(
        out,
        Keyword::DirSigningKey,
        b"",
        words,
        &authority.signing_key,
    )?;
    Ok(())
}

/// Appends its last items, up to the certification's object.
fn push_last(out: &mut Vec<u8>, authority: &Authority, crosscert: &Text) -> Result<(), Memory>
    requires { crosscert.now ≡ terms.crosscert_of authority.now }
    ensures { OnOk result (out.new.items ≡ out.old.items ++ items_text (terms.last_items authority.now)) }
{
    let words = b"ID SIGNATURE";
    push_with_object(out, Keyword::DirKeyCrosscert, b"", words, crosscert)?;
    push_bare(out, Keyword::DirKeyCertification, b"")?;
    Ok(())
}

/// The text that the certification is made over.
#[tactic(auto, using(frame_values::proofs::ItemsTexts::sections), unfolding(crate::specs::Certificates::covered_text))]
fn covered_text(alloc: Global, authority: &Authority, crosscert: &Text) -> Result<Vec<u8>, Memory>
    requires { crosscert.now ≡ terms.crosscert_of authority.now }
    ensures { IfOk result (λ text. text.items ≡ terms.covered_text authority.now) }
{
    let mut out = Vec::new(alloc);
    push_holder(&mut out, alloc, authority)?;
    push_keys(&mut out, alloc, authority)?;
    push_last(&mut out, authority, crosscert)?;
    Ok(out)
}

/// The signing key's signature over the digest of the identity key.
fn crosscert_of(alloc: Global, authority: &Authority) -> Result<Text, Memory>
    ensures { IfOk result (λ signature. signature ≡ terms.crosscert_of authority.now) }
{
    let digest = Sha1::digest(authority.identity_key.as_bytes());
    signature_by(
        alloc,
        KeyKind::Signing,
        authority.signing_key.as_bytes(),
        &digest,
    )
}

/// The identity key's signature over a digest.
fn certification_over(
    alloc: Global,
    authority: &Authority,
    digest: &[u8; 20],
) -> Result<Text, Memory>
    requires { digest.now ≡ terms.covered_digest authority.now }
    ensures { IfOk result (λ signature. signature ≡ terms.certification_of authority.now) }
{
    signature_by(
        alloc,
        KeyKind::Identity,
        authority.identity_key.as_bytes(),
        digest,
    )
}

/// The certificate of an authority, and its bytes.
///
/// # Errors
/// `Memory` is want of memory.
#[tactic(auto, unfolding(crate::specs::Certificates::certificate_of, crate::specs::Certificates::certificate_bytes))]
pub(crate) fn certificate_of(
    alloc: Global,
    authority: &Authority,
) -> Result<(Cert, Vec<u8>), Memory>
    ensures cert { IfOk result (λ made. made.0 ≡ terms.certificate_of authority.now) }
    ensures bytes { IfOk result (λ made. made.1.items ≡ terms.certificate_bytes authority.now) }
{
    let crosscert = crosscert_of(alloc, authority)?;
    let mut bytes = covered_text(alloc, authority, &crosscert)?;
    let covered = Sha1::digest(&bytes);
    let certification = certification_over(alloc, authority, &covered)?;
    push_object(&mut bytes, b"SIGNATURE", certification.as_bytes())?;
    let cert = Cert {
        address: None,
        fingerprint: authority.identity,
        identity_key: Text::copy_of(alloc, authority.identity_key.as_bytes())?,
        published: PUBLISHED,
        expires: EXPIRES,
        signing_key: Text::copy_of(alloc, authority.signing_key.as_bytes())?,
        crosscert,
        certification,
        covered: Digest1(covered),
    };
    Ok((cert, bytes))
}
