// What the texts of such lines list.
ghost use Rattle.std.specs.Prelude.{◌≡◌, IfOk, option_map};
ghost use Rattle.frame_values.specs.Parts as parts;
ghost use Rattle.value_groups.specs.Listed as listed;

use dir_bytes::Memory;
use dir_values::ValueRefusal;
use frame_values::{Span, part};
use list_values::{Params, ProtoRanges, VersionList};
use std::alloc::Global;

/// The params of a text, and none where something in it is wrong.
///
/// # Errors
/// `Memory` is want of memory.
pub fn params_in(alloc: Global, text: &[u8]) -> Result<Params, Memory>
    ensures { IfOk result (λ params. params ≡ listed.params_in text.now) }
{
    match Params::read(alloc, text) {
        Ok(params) => Ok(params),
        Err(ValueRefusal::BadValue { .. }) => Ok(Params::new(Vec::new(alloc))),
        Err(ValueRefusal::Memory) => Err(Memory),
    }
}

/// The versions of Tor of a text, in their order, and none where something in it is wrong.
///
/// # Errors
/// `Memory` is want of memory.
pub fn versions_in(alloc: Global, text: &[u8]) -> Result<VersionList, Memory>
    ensures { IfOk result (λ versions. versions ≡ listed.versions_in text.now) }
{
    match VersionList::read(alloc, text) {
        Ok(versions) => Ok(versions),
        Err(ValueRefusal::BadValue { .. }) => Ok(VersionList::new(Vec::new(alloc))),
        Err(ValueRefusal::Memory) => Err(Memory),
    }
}

/// The versions of protocols of a text, and none where something in it is wrong.
///
/// # Errors
/// `Memory` is want of memory.
pub fn protocols_in(alloc: Global, text: &[u8]) -> Result<ProtoRanges, Memory>
    ensures { IfOk result (λ protocols. protocols ≡ listed.protocols_in text.now) }
{
    match ProtoRanges::read(alloc, text) {
        Ok(protocols) => Ok(protocols),
        Err(ValueRefusal::BadValue { .. }) => Ok(ProtoRanges::new(Vec::new(alloc))),
        Err(ValueRefusal::Memory) => Err(Memory),
    }
}

/// The params of the text that stands in a span, where there is one.
///
/// # Errors
/// `Memory` is want of memory.
pub fn params_if(alloc: Global, bytes: &[u8], span: Option<Span>) -> Result<Option<Params>, Memory>
    ensures { IfOk result (λ params. params ≡ option_map listed.params_in (option_map (parts.part bytes.now) span)) }
{
    match span {
        Some(span) => Ok(Some(params_in(alloc, part(bytes, span))?)),
        None => Ok(None),
    }
}

/// The versions of Tor of the text that stands in a span, where there is one.
///
/// # Errors
/// `Memory` is want of memory.
pub fn versions_if(
    alloc: Global,
    bytes: &[u8],
    span: Option<Span>,
) -> Result<Option<VersionList>, Memory>
    ensures { IfOk result (λ versions. versions ≡ option_map listed.versions_in (option_map (parts.part bytes.now) span)) }
{
    match span {
        Some(span) => Ok(Some(versions_in(alloc, part(bytes, span))?)),
        None => Ok(None),
    }
}

/// The versions of protocols of the text that stands in a span, where there is one.
///
/// # Errors
/// `Memory` is want of memory.
pub fn protocols_if(
    alloc: Global,
    bytes: &[u8],
    span: Option<Span>,
) -> Result<Option<ProtoRanges>, Memory>
    ensures { IfOk result (λ protocols. protocols ≡ option_map listed.protocols_in (option_map (parts.part bytes.now) span)) }
{
    match span {
        Some(span) => Ok(Some(protocols_in(alloc, part(bytes, span))?)),
        None => Ok(None),
    }
}
