// The family certificates of a descriptor.
ghost use Rattle.std.specs.Prelude.{◌≡◌, IfOk, option_map};
ghost use Rattle.dirdoc_grammar.specs.Seen.{seen_item, seen_object_if};
ghost use Rattle.descriptor_doc.specs.FamilyCerts as families;
ghost use Rattle.descriptor_doc.specs.Reading as reading;

use crate::descriptor::Descriptor;
use count_terms::Newest;
use descriptor_frame::EdCert;
use dir_bytes::{Memory, Seq, Text};
use dir_values::Fingerprint;
use dirdoc_grammar::{Item, Items};
use frame_values::{between, has_words};
use std::alloc::Global;

/// How many bytes a descriptor may have.
const MAX_DESCRIPTOR: u64 = 65_536;

/// What an item of a descriptor says of the relay's families.
#[derive(Debug, Drop)]
pub(crate) enum FamilyItem {
    /// Nothing.
    Other,
    /// By this certificate a family key names the relay.
    Cert(EdCert),
    /// It has to have such a certificate, and has none.
    NoCert,
}

/// Whether an item is one of a family.
fn is_family_item(item: &Item<'_>) -> bool
    ensures { result ≡ families.is_family_item (seen_item item.now) }
{
    item.keyword == b"family-cert".as_slice()
}

/// The family certificate that the lines of the item's object spell, where they spell one.
///
/// # Errors
/// `Memory` is want of memory.
fn cert_in(alloc: Global, item: &Item<'_>) -> Result<Option<EdCert>, Memory>
    ensures { IfOk result (λ cert. cert ≡ families.cert_in (seen_object_if item.now.object)) }
{
    match item.object {
        Some(object) => {
            let bytes = object.decode(alloc)?;
            EdCert::read_family(alloc, &bytes)
        }
        None => Ok(None),
    }
}

/// The family certificate that the item's object is, where it is one.
///
/// # Errors
/// `Memory` is want of memory.
fn cert_of(alloc: Global, item: &Item<'_>) -> Result<Option<EdCert>, Memory>
    ensures { IfOk result (λ cert. cert ≡ families.cert_of (seen_object_if item.now.object)) }
{
    if has_words(item, b"FAMILY CERT") {
        cert_in(alloc, item)
    } else {
        Ok(None)
    }
}

/// What an item says of the relay's families.
///
/// # Errors
/// `Memory` is want of memory.
fn family_item(alloc: Global, item: &Item<'_>) -> Result<FamilyItem, Memory>
    ensures { IfOk result (λ said. said ≡ families.family_item (seen_item item.now)) }
{
    if !is_family_item(item) {
        return Ok(FamilyItem::Other);
    }
    match cert_of(alloc, item)? {
        Some(cert) => Ok(FamilyItem::Cert(cert)),
        None => Ok(FamilyItem::NoCert),
    }
}

/// The family certificates that a descriptor's text says, in their order; None where one of its items `family-cert` says none.
///
/// # Errors
/// `Memory` is want of memory.
fn family_certs_in(alloc: Global, text: &[u8]) -> Result<Option<Seq<EdCert>>, Memory>
    ensures { IfOk result (λ certs. certs ≡ reading.family_certs_in text.now) }
{
    let mut certs = Vec::new(alloc);
    let mut items = Items::new(between(text, 0, MAX_DESCRIPTOR), MAX_DESCRIPTOR);
    'items: while let Ok(Some(item)) = items.next() {
        match family_item(alloc, &item)? {
            FamilyItem::Other => (),
            FamilyItem::Cert(cert) => certs.push(cert)?,
            FamilyItem::NoCert => return Ok(None),
        }
    }
    Ok(Some(Seq::new(certs)))
}

/// The names of a family with the relay's own, where there is one.
///
/// # Errors
/// `Memory` is want of memory.
fn with_itself(
    alloc: Global,
    identity: &Fingerprint,
    family: Option<Seq<Text>>,
) -> Result<Option<Seq<Text>>, Memory>
    ensures { IfOk result (λ read. read ≡ option_map (reading.with_itself identity.now) family) }
{
    let Some(names) = family else {
        return Ok(None);
    };
    let mut names = names;
    if !names.is_empty() {
        let mut own = Vec::new(alloc);
        identity.push(&mut own)?;
        names.push(Text::new(own))?;
    }
    Ok(Some(names))
}

/// The descriptor with the relay in its family.
///
/// # Errors
/// `Memory` is want of memory.
fn in_its_family(alloc: Global, descriptor: Descriptor) -> Result<Descriptor, Memory>
    ensures { IfOk result (λ read. read ≡ reading.in_its_family descriptor) }
{
    let mut read = descriptor;
    read.family = with_itself(alloc, &read.identity, read.family.take())?;
    Ok(read)
}

/// The descriptor as an authority reads it whose newest method is this: from method 34 on with the relay in its family, and from 35
/// on with its family certificates.
///
/// # Errors
/// `Memory` is want of memory.
pub(crate) fn as_read(
    alloc: Global,
    newest: Newest,
    descriptor: Descriptor,
) -> Result<Descriptor, Memory>
    ensures { IfOk result (λ read. read ≡ reading.as_read newest descriptor) }
{
    match newest {
        Newest::Method33 => Ok(descriptor),
        Newest::Method34 => in_its_family(alloc, descriptor),
        Newest::Method35 => {
            let mut read = in_its_family(alloc, descriptor)?;
            read.family_certs = family_certs_in(alloc, read.text.as_slice())?;
            Ok(read)
        }
    }
}
