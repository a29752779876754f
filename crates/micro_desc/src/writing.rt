// Writing a microdescriptor, and its digest.
ghost use Rattle.std.specs.Prelude.{◌≡◌, ◌++◌, IfOk, OnOk, OnErr, take, vec_len};
ghost use Rattle.dirdoc_grammar.specs.Writing.{item_text, items_text};
ghost use Rattle.micro_desc.specs.Texts as texts;

use crate::micro::Micro;
use crate::said::MicroId;
use descriptor_frame::push_names;
use dir_bytes::{Memory, Seq, Text, push_base64};
use dir_values::Digest2;
use frame_terms::Keyword;
use frame_values::{push_bare, push_if, push_with_object};
use sha2::{Digest, Sha256};
use std::alloc::Global;

/// Appends the first item.
///
/// # Errors
/// `Memory` is want of memory.
fn push_onion_key(out: &mut Vec<u8>, key: &Option<Text>) -> Result<(), Memory>
    ensures ok { OnOk result (out.new.items ≡ out.old.items ++ item_text (texts.onion_key_item key.now)) }
    ensures err { OnErr result (take (vec_len out.old) out.new.items ≡ out.old.items) }
{
    match key {
        Some(key) => push_with_object(out, Keyword::OnionKey, b"", b"RSA PUBLIC KEY", key),
        None => push_bare(out, Keyword::OnionKey, b""),
    }
}

/// Appends the item of the ntor onion key, where there is one.
///
/// # Errors
/// `Memory` is want of memory.
fn push_ntor_key(out: &mut Vec<u8>, alloc: Global, key: &Option<[u8; 32]>) -> Result<(), Memory>
    ensures ok { OnOk result (out.new.items ≡ out.old.items ++ items_text (texts.ntor_key_items key.now)) }
    ensures err { OnErr result (take (vec_len out.old) out.new.items ≡ out.old.items) }
{
    let Some(key) = key else {
        return Ok(());
    };
    let mut rest = Vec::new(alloc);
    push_base64(&mut rest, key)?;
    push_bare(out, Keyword::NtorOnionKey, &rest)
}

/// Appends the item of the family, where there is one.
///
/// # Errors
/// `Memory` is want of memory.
fn push_family(out: &mut Vec<u8>, alloc: Global, family: &Option<Seq<Text>>) -> Result<(), Memory>
    ensures ok { OnOk result (out.new.items ≡ out.old.items ++ items_text (texts.family_items family.now)) }
    ensures err { OnErr result (take (vec_len out.old) out.new.items ≡ out.old.items) }
{
    let Some(names) = family else {
        return Ok(());
    };
    let mut rest = Vec::new(alloc);
    push_names(&mut rest, names.as_slice())?;
    push_bare(out, Keyword::Family, &rest)
}

/// Appends a kind of key and an identity.
///
/// # Errors
/// `Memory` is want of memory.
fn push_identity(rest: &mut Vec<u8>, id: &MicroId) -> Result<(), Memory>
    ensures ok { OnOk result (rest.new.items ≡ rest.old.items ++ texts.id_text id.now) }
    ensures err { OnErr result (take (vec_len rest.old) rest.new.items ≡ rest.old.items) }
{
    match id {
        MicroId::Ed25519(key) => {
            rest.extend_from_slice(b"ed25519 ")?;
            push_base64(rest, key)
        }
        MicroId::Rsa1024(identity) => {
            rest.extend_from_slice(b"rsa1024 ")?;
            push_base64(rest, &identity.0)
        }
    }
}

/// Appends the item that says whose microdescriptor it is, where it is said.
///
/// # Errors
/// `Memory` is want of memory.
fn push_id(out: &mut Vec<u8>, alloc: Global, id: &Option<MicroId>) -> Result<(), Memory>
    ensures ok { OnOk result (out.new.items ≡ out.old.items ++ items_text (texts.id_items id.now)) }
    ensures err { OnErr result (take (vec_len out.old) out.new.items ≡ out.old.items) }
{
    let Some(id) = id else {
        return Ok(());
    };
    let mut rest = Vec::new(alloc);
    push_identity(&mut rest, id)?;
    push_bare(out, Keyword::Id, &rest)
}

/// The canonical text of a microdescriptor that says this: its items in the order of dir-spec's table, with single spaces, the
/// names of the family in their order, `family-ids`, `p` and `p6` as they stand, keys in base64 without `=`, an object in lines
/// of 64.
///
/// # Errors
/// `Memory` is want of memory.
pub fn write(alloc: Global, micro: &Micro) -> Result<Vec<u8>, Memory>
    ensures { IfOk result (λ text. text.items ≡ texts.micro_text micro.now) }
{
    let mut out = Vec::new(alloc);
    push_onion_key(&mut out, &micro.onion_key)?;
    push_ntor_key(&mut out, alloc, &micro.ntor_onion_key)?;
    push_family(&mut out, alloc, &micro.family)?;
    push_if(&mut out, Keyword::FamilyIds, &micro.family_ids)?;
    push_if(&mut out, Keyword::P, &micro.p)?;
    push_if(&mut out, Keyword::P6, &micro.p6)?;
    push_id(&mut out, alloc, &micro.id)?;
    Ok(out)
}

/// The digest of a microdescriptor of this text: the SHA-256 of the whole text. Takes no memory.
pub fn digest(text: &[u8]) -> Digest2
    ensures { result ≡ texts.digest_of text.now }
{
    Digest2(Sha256::digest(text))
}
