// The texts and the bytes that stand in a document's bytes.
ghost use Rattle.std.specs.Prelude.{◌≡◌, ◌≤◌, IfOk, length, slice_range, option_map};
ghost use Rattle.dir_bytes.specs.Causes.{last_moment};
ghost use Rattle.frame_values.specs.Parts as parts;
ghost use Rattle.frame_values.specs.Parts.{moment_of};

use crate::found::Span;
use dir_bytes::{LAST_MOMENT, Memory, Text};
use dirdoc_grammar::decode_lines;
use std::alloc::Global;

/// The part of a text from one place to another; places past its end name what there is.
pub fn between(bytes: &[u8], start: u64, end: u64) -> &[u8]
    ensures part { result.now ≡ slice_range bytes.now start end }
    ensures within { length result.now ≤ length bytes.now }
{
    let len = bytes.len();
    let from = if start < len as u64 {
        start as usize
    } else {
        len
    };
    let rest = &bytes[from..];
    let wanted = end.saturating_sub(start);
    let count = if wanted < rest.len() as u64 {
        wanted as usize
    } else {
        rest.len()
    };
    &rest[..count]
}

/// The text that stands in a span.
pub fn part(bytes: &[u8], span: Span) -> &[u8]
    ensures part { result.now ≡ parts.part bytes.now span }
    ensures within { length result.now ≤ length bytes.now }
{
    between(bytes, span.start, span.end)
}

/// The text that stands in a span, where there is one.
pub fn part_if(bytes: &[u8], span: Option<Span>) -> Option<&[u8]>
    ensures { option_map (λ text. text.now) result ≡ option_map (parts.part bytes.now) span }
{
    match span {
        Some(span) => Some(part(bytes, span)),
        None => None,
    }
}

/// A copy of the text that stands in a span.
///
/// # Errors
/// `Memory` is want of memory.
pub fn copy_part(alloc: Global, bytes: &[u8], span: Span) -> Result<Text, Memory>
    ensures { IfOk result (λ text. text ≡ parts.part bytes.now span) }
{
    Text::copy_of(alloc, part(bytes, span))
}

/// A copy of the text that stands in a span, where there is one.
///
/// # Errors
/// `Memory` is want of memory.
pub fn copy_part_if(alloc: Global, bytes: &[u8], span: Option<Span>) -> Result<Option<Text>, Memory>
    ensures { IfOk result (λ text. text ≡ option_map (parts.part bytes.now) span) }
{
    match span {
        Some(span) => Ok(Some(copy_part(alloc, bytes, span)?)),
        None => Ok(None),
    }
}

/// The bytes that an object's lines spell, which stand in a span; none where they are no base64.
///
/// # Errors
/// `Memory` is want of memory.
pub fn decode_part(alloc: Global, bytes: &[u8], lines: Span) -> Result<Text, Memory>
    ensures { IfOk result (λ text. text ≡ parts.bytes_in bytes.now lines) }
{
    match decode_lines(alloc, part(bytes, lines))? {
        Some(decoded) => Ok(Text::new(decoded)),
        None => Ok(Text::new(Vec::new(alloc))),
    }
}

/// A moment that was read, in seconds since 1970-01-01 00:00:00 UTC; one past the calendar is its last one.
pub fn moment(number: u64) -> u64
    ensures value { result ≡ moment_of number }
    ensures within { result ≤ last_moment }
{
    number.min(LAST_MOMENT)
}
