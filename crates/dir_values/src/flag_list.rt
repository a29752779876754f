// Lists of flags in which something is wrong.
ghost use Rattle.std.specs.Prelude.{◌≡◌, ◌+◌, ◌<◌, ◌^◌, [], IfOk, IfSome, length};
ghost use Rattle.dir_values.specs.Arguments.{arguments_at};
ghost use Rattle.dir_values.specs.FlagSets as flag_sets;
ghost use Rattle.dir_values.specs.Lending as lending;

use crate::arguments::Arguments;
use crate::word_set::WordSet;
use dir_bytes::Memory;
use std::alloc::Global;

/// The place of the first argument of a text, which begins at this place, that is no name of a flag, or that stands in the
/// text before. None where the text is a list of flags. Of flags that ascend it takes no memory.
pub fn first_wrong_flag(alloc: Global, start: u64, text: &[u8]) -> Result<Option<u64>, Memory>
    requires { start + length text.now < 2 ^ 64 }
    ensures { IfOk result (λ wrong. wrong ≡ flag_sets.wrong_flag [] (arguments_at start text.now)) }
{
    match wrong_while_ascending(start, text) {
        Some(wrong) => Ok(wrong),
        None => wrong_in_any_order(alloc, start, text),
    }
}

/// The same as far as the flags ascend. None where one does not come behind the one before it.
fn wrong_while_ascending(start: u64, text: &[u8]) -> Option<Option<u64>>
    requires { start + length text.now < 2 ^ 64 }
    ensures { IfSome result (λ wrong. wrong ≡ flag_sets.wrong_flag [] (arguments_at start text.now)) }
{
    let mut arguments = Arguments::at(start, text);
    let mut last: &[u8] = b"";
    'arguments: while let Some(argument) = arguments.next() {
        if !is_name(argument.text) {
            return Some(Some(argument.place));
        }
        if !last.cmp(argument.text).is_lt() {
            return None;
        }
        last = argument.text;
    }
    Some(None)
}

/// The same, whatever the order of the flags.
fn wrong_in_any_order(alloc: Global, start: u64, text: &[u8]) -> Result<Option<u64>, Memory>
    requires { start + length text.now < 2 ^ 64 }
    ensures { IfOk result (λ wrong. wrong ≡ flag_sets.wrong_flag [] (arguments_at start text.now)) }
{
    let mut arguments = Arguments::at(start, text);
    let mut before = WordSet::new(alloc);
    'arguments: while let Some(argument) = arguments.next() {
        if !is_name(argument.text) {
            return Ok(Some(argument.place));
        }
        if !before.insert(argument.text)? {
            return Ok(Some(argument.place));
        }
    }
    Ok(None)
}

/// Whether a text is the name of a flag: 1 to 64 letters, digits, `-` and `_`.
pub fn is_name(text: &[u8]) -> bool
    ensures { result ≡ flag_sets.is_name text.now }
{
    text.len() >= 1 && text.len() <= 64 && has_name_bytes(text)
}

/// Whether a text has letters, digits, `-` and `_` alone.
fn has_name_bytes(text: &[u8]) -> bool
    ensures { result ≡ lending.has_name_bytes text.now }
{
    text.iter().all(|byte| is_name_byte(*byte))
}

fn is_name_byte(byte: u8) -> bool
    ensures { result ≡ flag_sets.is_name_byte byte }
{
    byte.is_ascii_alphanumeric() || byte == b'-' || byte == b'_'
}
