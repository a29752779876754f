// Texts of params.
ghost use Rattle.std.specs.Prelude.{◌≡◌, ◌+◌, ◌<◌, ◌^◌, IfOk, IfSome, length};
ghost use Rattle.dir_values.specs.Arguments.{arguments_at};
ghost use Rattle.item_terms.specs.Words.{words_of};
ghost use Rattle.list_values.specs.Maps as maps;
ghost use Rattle.list_values.specs.Lending as lending;
ghost use Rattle.list_values.specs.Params as params;

use crate::equation::{left_side, right_side};
use crate::name_map::NameMap;
use crate::named::Named;
use dir_bytes::{Memory, read_i32};
use dir_values::{Arguments, WordSet, is_name};
use std::alloc::Global;

/// The place of the first argument of a text, which begins at this place, that is no param, or whose name stands before too.
/// None where the text is a list of params. Of params that ascend by name it takes no memory.
///
/// # Errors
/// `Memory` is want of memory.
pub fn first_wrong_param(alloc: Global, start: u64, text: &[u8]) -> Result<Option<u64>, Memory>
    requires { start + length text.now < 2 ^ 64 }
    ensures { IfOk result (λ wrong. wrong ≡ params.wrong_param (arguments_at start text.now)) }
{
    match wrong_while_ascending(start, text) {
        Some(wrong) => Ok(wrong),
        None => wrong_in_any_order(alloc, start, text),
    }
}

/// The same as far as the names ascend. None where one does not come behind the one before it.
fn wrong_while_ascending(start: u64, text: &[u8]) -> Option<Option<u64>>
    requires { start + length text.now < 2 ^ 64 }
    ensures { IfSome result (λ wrong. wrong ≡ params.wrong_param (arguments_at start text.now)) }
{
    let mut arguments = Arguments::at(start, text);
    let mut last: &[u8] = b"";
    'arguments: while let Some(argument) = arguments.next() {
        let name = name_in(argument.text);
        if !is_name(name) {
            return Some(Some(argument.place));
        }
        if !last.cmp(name).is_lt() {
            return None;
        }
        last = name;
    }
    Some(None)
}

/// The same, whatever the order of the names.
fn wrong_in_any_order(alloc: Global, start: u64, text: &[u8]) -> Result<Option<u64>, Memory>
    requires { start + length text.now < 2 ^ 64 }
    ensures { IfOk result (λ wrong. wrong ≡ params.wrong_param (arguments_at start text.now)) }
{
    let mut arguments = Arguments::at(start, text);
    let mut before = WordSet::new(alloc);
    'arguments: while let Some(argument) = arguments.next() {
        let name = name_in(argument.text);
        if !is_name(name) {
            return Ok(Some(argument.place));
        }
        if !before.insert(name)? {
            return Ok(Some(argument.place));
        }
    }
    Ok(None)
}

/// The params that the words of a text spell, by name; the number is 0 where a word spells none.
///
/// # Errors
/// `Memory` is want of memory.
pub(crate) fn params_in(alloc: Global, text: &[u8]) -> Result<Vec<Named<i32>>, Memory>
    ensures value { IfOk result (λ read. read.items ≡ params.as_params (words_of text.now)) }
    ensures ascending { IfOk result (λ read. maps.Ascend read.items) }
{
    let mut map = NameMap::new(alloc);
    let mut arguments = Arguments::at(0, text);
    'arguments: while let Some(argument) = arguments.next() {
        map.put(left_side(argument.text), number_or_zero(argument.text))?;
    }
    map.copies(alloc)
}

/// The name of the param that a text spells, and no byte where it spells none.
fn name_in(text: &[u8]) -> &[u8]
    ensures { result.now ≡ params.name_in text.now }
{
    if number_in(text).is_some() {
        left_side(text)
    } else {
        b""
    }
}

/// The number of the param that a text spells.
fn number_in(text: &[u8]) -> Option<i32>
    ensures { result ≡ params.number_in text.now }
{
    read_i32(right_side(text)).ok()
}

/// The number of the param that a text spells, and 0 of another.
fn number_or_zero(text: &[u8]) -> i32
    ensures { result ≡ lending.number_or_zero text.now }
{
    match number_in(text) {
        Some(number) => number,
        None => 0,
    }
}
