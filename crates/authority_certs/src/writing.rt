// Writing a certificate.
ghost use Rattle.std.specs.Prelude.{◌≡◌, ◌++◌, IfOk, OnOk, OnErr, take, vec_len};
ghost use Rattle.dir_bytes.specs.FieldTexts.{hex_text};
ghost use Rattle.dirdoc_grammar.specs.Writing.{item_text, items_text};
ghost use Rattle.frame_values.specs.Items as items;
ghost use Rattle.authority_certs.specs.Texts as texts;

use crate::cert::Cert;
use dir_bytes::{Memory, push_hex_upper};
use dir_values::Fingerprint;
use frame_terms::Keyword;
use frame_values::{push_bare, push_if, push_timed, push_with_object};
use std::alloc::Global;

// The item that says whose a certificate is.
fn push_identity(out: &mut Vec<u8>, alloc: Global, identity: Fingerprint) -> Result<(), Memory>
    ensures ok { OnOk result (out.new.items ≡ out.old.items ++ item_text (items.bare Keyword.Fingerprint (hex_text identity.0))) }
    ensures err { OnErr result (take (vec_len out.old) out.new.items ≡ out.old.items) }
{
    let mut rest = Vec::new(alloc);
    push_hex_upper(&mut rest, &identity.0)?;
    push_bare(out, Keyword::Fingerprint, &rest)
}

// Whose certificate it is.
fn push_holder(out: &mut Vec<u8>, alloc: Global, cert: &Cert) -> Result<(), Memory>
    ensures ok { OnOk result (out.new.items ≡ out.old.items ++ items_text (texts.holder_items cert.now)) }
    ensures err { OnErr result (take (vec_len out.old) out.new.items ≡ out.old.items) }
{
    push_bare(out, Keyword::DirKeyCertificateVersion, b"3")?;
    push_if(out, Keyword::DirAddress, &cert.address)?;
    push_identity(out, alloc, cert.fingerprint)?;
    Ok(())
}

// The certificate's keys and times.
fn push_keys(out: &mut Vec<u8>, alloc: Global, cert: &Cert) -> Result<(), Memory>
    ensures ok { OnOk result (out.new.items ≡ out.old.items ++ items_text (texts.key_items cert.now)) }
    ensures err { OnErr result (take (vec_len out.old) out.new.items ≡ out.old.items) }
{
    let words = b"RSA PUBLIC KEY";
    push_with_object(out, Keyword::DirIdentityKey, b"", words, &cert.identity_key)?;
    push_timed(out, alloc, Keyword::DirKeyPublished, cert.published)?;
    push_timed(out, alloc, Keyword::DirKeyExpires, cert.expires)?;
    push_with_object(out, Keyword::DirSigningKey, b"", words, &cert.signing_key)?;
    Ok(())
}

// The certificate's signatures.
fn push_proofs(out: &mut Vec<u8>, cert: &Cert) -> Result<(), Memory>
    ensures ok { OnOk result (out.new.items ≡ out.old.items ++ items_text (texts.proof_items cert.now)) }
    ensures err { OnErr result (take (vec_len out.old) out.new.items ≡ out.old.items) }
{
    push_with_object(
        out,
        Keyword::DirKeyCrosscert,
        b"",
        b"ID SIGNATURE",
        &cert.crosscert,
    )?;
    push_with_object(
        out,
        Keyword::DirKeyCertification,
        b"",
        b"SIGNATURE",
        &cert.certification,
    )?;
    Ok(())
}

/// The canonical text of a certificate that says this: its items in the order of dir-spec's table, with single spaces,
/// digits in upper case, objects in lines of 64. A moment past the calendar is written as its last one. What `covered`
/// is does not matter: it is the digest of the text that was read.
///
/// # Errors
/// `Memory` is want of memory.
#[tactic(auto, using(frame_values::proofs::ItemsTexts::sections))]
pub fn write(alloc: Global, cert: &Cert) -> Result<Vec<u8>, Memory>
    ensures { IfOk result (λ text. text.items ≡ texts.cert_text cert.now) }
{
    let mut out = Vec::new(alloc);
    push_holder(&mut out, alloc, cert)?;
    push_keys(&mut out, alloc, cert)?;
    push_proofs(&mut out, cert)?;
    Ok(out)
}
