// What is kept of a microdescriptor's items: keys, and where its texts stand.
ghost use Rattle.std.specs.Prelude.{◌≡◌, ◌<◌, ◌^◌, IfOk, length};
ghost use Rattle.frame_values.specs.Values.{item_at};
ghost use Rattle.micro_desc.specs.Heads as heads;
ghost use Rattle.micro_desc.specs.Micros as micros;

use crate::micro::Micro;
use crate::said::{MicroId, MicroValue};
use descriptor_doc::{decode_if, words_if};
use dir_bytes::Memory;
use frame_terms::{Keyword, Taken};
use frame_values::{Span, Value, copy_part_if, own_at, text_if};
use std::alloc::Global;

/// What the items of a microdescriptor say, and where its texts stand in the bytes of its document.
#[derive(Clone, Copy, Debug)]
pub struct MicroHead {
    /// The lines of the relay's RSA onion key.
    pub onion_key: Option<Span>,
    /// Its ntor onion key.
    pub ntor_onion_key: Option<[u8; 32]>,
    /// Its family.
    pub family: Option<Span>,
    /// The families of which it has certificates.
    pub family_ids: Option<Span>,
    /// The summary of its exit policy.
    pub p: Option<Span>,
    /// The summary of its exit policy for IPv6.
    pub p6: Option<Span>,
    /// Whose microdescriptor it is.
    pub id: Option<MicroId>,
}

/// Where the lines of the onion key stand, where there is one.
fn onion_key_at(taken: &[Taken<Value<MicroValue>>]) -> Option<Span>
    ensures { result ≡ heads.onion_key_in (item_at taken.now Keyword.OnionKey) }
{
    match own_at(taken, Keyword::OnionKey) {
        Some(MicroValue::OnionKey(lines)) => lines,
        _ => None,
    }
}

/// The ntor onion key, where there is one.
fn key_at(taken: &[Taken<Value<MicroValue>>]) -> Option<[u8; 32]>
    ensures { result ≡ heads.key_in (item_at taken.now Keyword.NtorOnionKey) }
{
    match own_at(taken, Keyword::NtorOnionKey) {
        Some(MicroValue::Key(key)) => Some(key),
        _ => None,
    }
}

/// Whose microdescriptor it is, where it is said.
fn id_at(taken: &[Taken<Value<MicroValue>>]) -> Option<MicroId>
    ensures { result ≡ heads.id_in (item_at taken.now Keyword.Id) }
{
    match own_at(taken, Keyword::Id) {
        Some(MicroValue::Id(id)) => Some(id),
        _ => None,
    }
}

/// What is kept of a microdescriptor with these items.
pub fn head_of(taken: &[Taken<Value<MicroValue>>]) -> MicroHead
    ensures { result ≡ heads.head_of taken.now }
{
    MicroHead {
        onion_key: onion_key_at(taken),
        ntor_onion_key: key_at(taken),
        family: text_if(taken, Keyword::Family),
        family_ids: text_if(taken, Keyword::FamilyIds),
        p: text_if(taken, Keyword::P),
        p6: text_if(taken, Keyword::P6),
        id: id_at(taken),
    }
}

/// What the microdescriptor says of whose section this was kept, in the bytes of its document.
///
/// # Errors
/// `Memory` is want of memory.
pub fn micro_at(alloc: Global, bytes: &[u8], head: &MicroHead) -> Result<Micro, Memory>
    requires { length bytes.now < 2 ^ 62 }
    ensures { IfOk result (λ micro. micro ≡ micros.micro_in bytes.now head.now) }
{
    Ok(Micro {
        onion_key: decode_if(alloc, bytes, head.onion_key)?,
        ntor_onion_key: head.ntor_onion_key,
        family: words_if(alloc, bytes, head.family)?,
        family_ids: copy_part_if(alloc, bytes, head.family_ids)?,
        p: copy_part_if(alloc, bytes, head.p)?,
        p6: copy_part_if(alloc, bytes, head.p6)?,
        id: head.id,
    })
}
