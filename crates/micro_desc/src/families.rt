// The families that a relay's certificates name.
ghost use Rattle.std.specs.Prelude.{◌≡◌, IfOk, map, option_and_then};
ghost use Rattle.micro_desc.specs.Makings as makings;

use descriptor_doc::EdCert;
use descriptor_frame::push_names;
use dir_bytes::{Memory, Seq, Text, push_base64};
use dir_values::WordSet;
use std::alloc::Global;

/// The name of the family with this key.
///
/// # Errors
/// `Memory` is want of memory.
fn family_id(alloc: Global, key: &[u8; 32]) -> Result<Text, Memory>
    ensures { IfOk result (λ id. id ≡ makings.family_id key.now) }
{
    let mut text = Vec::new(alloc);
    text.extend_from_slice(b"ed25519:")?;
    push_base64(&mut text, key)?;
    Ok(Text::new(text))
}

/// The names of the families of certificates, in their order.
///
/// # Errors
/// `Memory` is want of memory.
fn named_by(alloc: Global, certs: &[EdCert]) -> Result<Vec<Text>, Memory>
    ensures { IfOk result (λ names. names.items ≡ map (λ cert. makings.family_id cert.signer) certs.now) }
{
    let mut names = Vec::with_capacity(alloc, certs.len())?;
    'certs: for cert in certs {
        names.push(family_id(alloc, &cert.signer)?)?;
    }
    Ok(names)
}

/// The set of the names of the families of certificates, sorted by bytes, each once. It takes n log n comparisons.
///
/// # Errors
/// `Memory` is want of memory.
fn families_of(alloc: Global, certs: &[EdCert]) -> Result<Seq<Text>, Memory>
    ensures { IfOk result (λ families. families ≡ makings.families_of certs.now) }
{
    let names = named_by(alloc, certs)?;
    let mut set = WordSet::new(alloc);
    set.insert_all(&names)?;
    Ok(Seq::new(set.copies(alloc)?))
}

/// The rest of the line `family-ids`, where these certificates name a family.
///
/// # Errors
/// `Memory` is want of memory.
fn ids_if(alloc: Global, certs: &[EdCert]) -> Result<Option<Text>, Memory>
    ensures { IfOk result (λ ids. ids ≡ makings.ids_if certs.now) }
{
    let families = families_of(alloc, certs)?;
    if families.is_empty() {
        return Ok(None);
    }
    let mut ids = Vec::new(alloc);
    push_names(&mut ids, families.as_slice())?;
    Ok(Some(Text::new(ids)))
}

/// The same of the family certificates that a descriptor says.
///
/// # Errors
/// `Memory` is want of memory.
pub(crate) fn ids_of(alloc: Global, certs: &Option<Seq<EdCert>>) -> Result<Option<Text>, Memory>
    ensures { IfOk result (λ ids. ids ≡ option_and_then makings.ids_if certs.now) }
{
    match certs {
        Some(certs) => ids_if(alloc, certs.as_slice()),
        None => Ok(None),
    }
}
