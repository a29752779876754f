// Texts of protocols.
ghost use Rattle.std.specs.{Prelude.{◌≡◌, ◌+◌, ◌<◌, ◌^◌, IfOk, is_some, length}, Option.option_map};
ghost use Rattle.dir_values.specs.Arguments.{arguments_at};
ghost use Rattle.item_terms.specs.Words.{words_of};
ghost use Rattle.list_values.specs.Lending as lending;
ghost use Rattle.list_values.specs.Maps as maps;
ghost use Rattle.list_values.specs.Masks as masks;
ghost use Rattle.list_values.specs.Protocols as protocols;

use crate::equation::{left_side, right_side};
use crate::mask::mask_of;
use crate::name_map::NameMap;
use crate::named::Named;
use crate::number_range::range_of;
use crate::parts::Parts;
use dir_bytes::Memory;
use dir_values::{Arguments, has, is_name};
use std::alloc::Global;

/// The place of the first argument of a text, which begins at this place, that is no name of a protocol, `=` and ranges of
/// numbers from 0 to 63. None where each is.
pub fn wrong_protocol(start: u64, text: &[u8]) -> Option<u64>
    requires { start + length text.now < 2 ^ 64 }
    ensures { result ≡ protocols.wrong_protocol (arguments_at start text.now) }
{
    wrong_among(&mut Arguments::at(start, text))
}

/// The same of the arguments that are left.
fn wrong_among(arguments: &mut Arguments<'_>) -> Option<u64>
    ensures { result ≡ protocols.wrong_protocol arguments.old }
{
    'arguments: while let Some(argument) = arguments.next() {
        if !is_protocol(argument.text) {
            return Some(argument.place);
        }
    }
    None
}

/// Whether a text is the name of a protocol, `=` and ranges.
fn is_protocol(text: &[u8]) -> bool
    ensures { result ≡ protocols.is_protocol text.now }
{
    has(text, b'=') && is_name(left_side(text)) && listed_mask(right_side(text)).is_some()
}

/// The bits of the numbers that ranges with commas between them have; None where a part is no range.
fn listed_mask(text: &[u8]) -> Option<u64>
    ensures { option_map masks.numbers_of result ≡ lending.listed_numbers text.now }
{
    if text.is_empty() {
        return Some(0);
    }
    mask_in(text)
}

/// The same of a text that is not empty.
fn mask_in(text: &[u8]) -> Option<u64>
    ensures { option_map masks.numbers_of result ≡ lending.part_numbers text.now }
{
    let mut mask = 0;
    let mut parts = Parts::of(text);
    'parts: while let Some(part) = parts.next() {
        mask |= mask_of(range_of(part)?);
    }
    Some(mask)
}

/// The bits of the numbers that a protocol lists, and none of another text.
fn mask_or_none(text: &[u8]) -> u64
    ensures { masks.numbers_of result ≡ protocols.numbers_in text.now }
{
    listed_mask(right_side(text)).unwrap_or(0)
}

/// The bits of the numbers of a protocol.
fn mask_at(map: &NameMap<'_, u64>, name: &[u8]) -> u64
    ensures { masks.numbers_of result ≡ protocols.numbers_at (masks.all_listed map.now) name.now }
{
    map.get(name).unwrap_or(0)
}

/// The protocols of the words of a text, by name.
///
/// # Errors
/// `Memory` is want of memory.
pub(crate) fn protocols_in(alloc: Global, text: &[u8]) -> Result<Vec<Named<u64>>, Memory>
    ensures value { IfOk result (λ read. masks.all_listed read.items ≡ protocols.as_protocols (words_of text.now)) }
    ensures ascending { IfOk result (λ read. maps.Ascend read.items) }
{
    let mut map = NameMap::new(alloc);
    let mut arguments = Arguments::at(0, text);
    'arguments: while let Some(argument) = arguments.next() {
        let name = left_side(argument.text);
        let mask = mask_at(&map, name) | mask_or_none(argument.text);
        map.put(name, mask)?;
    }
    map.copies(alloc)
}
