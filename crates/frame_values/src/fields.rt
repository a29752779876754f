// What single arguments say, and where they stand.
ghost use Rattle.std.specs.Prelude.{◌≡◌, ◌<◌, ◌+◌, ◌^◌, length};
ghost use Rattle.dir_bytes.specs.Fields as texts;
ghost use Rattle.dir_values.specs.Digests as digests;
ghost use Rattle.dir_values.specs.Names as names;
ghost use Rattle.dir_values.specs.Taking.{argument_of};
ghost use Rattle.frame_values.specs.Arguments as arguments;
ghost use Rattle.frame_values.specs.Fields as fields;

use crate::found::Span;
use dir_bytes::{read_address, read_date, read_time_of_day};
use dir_values::{Argument, Digest1, Fingerprint, is_nickname};

/// The value of an argument, or its place where it has none.
pub fn field<T>(argument: &Argument<'_>, value: Option<T>) -> Result<T, u64>
    ensures { result ≡ arguments.field (argument_of argument.now) value }
{
    match value {
        Some(value) => Ok(value),
        None => Err(argument.place),
    }
}

/// Where a text stands that begins at a place.
pub fn span(start: u64, text: &[u8]) -> Span
    requires { start + length text.now < 2 ^ 64 }
    ensures { result ≡ fields.span start text.now }
{
    Span {
        start,
        end: start + text.len() as u64,
    }
}

/// Where an argument stands, if it passes.
fn span_if(passes: bool, argument: &Argument<'_>) -> Option<Span>
    requires { argument.now.place + length argument.now.text.now < 2 ^ 64 }
    ensures { result ≡ fields.span_if passes (argument_of argument.now) }
{
    if passes {
        Some(span(argument.place, argument.text))
    } else {
        None
    }
}

/// Whether there is an argument at all.
fn is_there(text: &[u8]) -> bool
    ensures { result ≡ fields.is_there text.now }
{
    match text {
        [] => false,
        [_, ..] => true,
    }
}

/// Where an argument stands, whatever it is.
pub fn any_text(argument: &Argument<'_>) -> Option<Span>
    requires { argument.now.place + length argument.now.text.now < 2 ^ 64 }
    ensures { result ≡ fields.span_if (fields.is_there argument.now.text.now) (argument_of argument.now) }
{
    span_if(is_there(argument.text), argument)
}

/// Where a nickname stands.
pub fn nickname(argument: &Argument<'_>) -> Option<Span>
    requires { argument.now.place + length argument.now.text.now < 2 ^ 64 }
    ensures { result ≡ fields.span_if (names.is_nickname argument.now.text.now) (argument_of argument.now) }
{
    span_if(is_nickname(argument.text), argument)
}

/// The days from 1970-01-01 to a date.
pub fn day(text: &[u8]) -> Option<u32>
    ensures { result ≡ texts.date text.now }
{
    read_date(text).ok()
}

/// The seconds from midnight to a time of day.
pub fn second_of_day(text: &[u8]) -> Option<u32>
    ensures { result ≡ texts.time_of_day text.now }
{
    read_time_of_day(text).ok()
}

/// An IPv4 address, the first byte highest.
pub fn ip(text: &[u8]) -> Option<u32>
    ensures { result ≡ texts.address text.now }
{
    read_address(text).ok()
}

/// The identity that 40 hex digits spell.
pub fn fingerprint(text: &[u8]) -> Option<Fingerprint>
    ensures { result ≡ digests.fingerprint text.now }
{
    Fingerprint::read(text).ok()
}

/// The digest of a signing key that 40 hex digits spell.
pub fn key_digest(text: &[u8]) -> Option<Digest1>
    ensures { result ≡ digests.key_digest text.now }
{
    Digest1::read_hex(text).ok()
}
