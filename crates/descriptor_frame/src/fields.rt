// What single arguments of a server descriptor's items say.
ghost use Rattle.std.specs.Prelude.{◌≡◌, ◌<◌, ◌+◌, ◌^◌, length};
ghost use Rattle.dir_values.specs.Taking.{argument_of};
ghost use Rattle.frame_values.specs.{Arguments.others, Fields.span_if};
ghost use Rattle.descriptor_frame.specs.Fields as fields;

use dir_bytes::{read_base64, read_hex, read_u64};
use dir_values::{Argument, Arguments, port_of};
use exit_summary::{after_last, has_last};
use frame_values::{Span, field, span, take_argument};

/// A number below 2 ^ 64.
pub(crate) fn long_number(text: &[u8]) -> Option<u64>
    ensures { result ≡ fields.long_number text.now }
{
    read_u64(text).ok()
}

/// Whether a relay rests: `0` or `1`.
pub(crate) fn hibernating(text: &[u8]) -> Option<bool>
    ensures { result ≡ fields.hibernating text.now }
{
    if text == b"0".as_slice() {
        Some(false)
    } else if text == b"1".as_slice() {
        Some(true)
    } else {
        None
    }
}

/// 32 bytes in base64.
pub fn key(text: &[u8]) -> Option<[u8; 32]>
    ensures { result ≡ fields.key text.now }
{
    let mut bytes = [0u8; 32];
    match read_base64(text, &mut bytes) {
        Ok(()) => Some(bytes),
        Err(_) => None,
    }
}

/// The text without the one `=` that fills its 43 characters up to 44.
fn without_padding(text: &[u8]) -> &[u8]
    ensures { result.now ≡ fields.without_padding text.now }
{
    if text.len() == 44 && text[43] == b'=' {
        let (bare, _) = text.split_at(43);
        bare
    } else {
        text
    }
}

/// 32 bytes in base64, of which one `=` may stand at the end.
pub(crate) fn padded_key(text: &[u8]) -> Option<[u8; 32]>
    ensures { result ≡ fields.padded_key text.now }
{
    key(without_padding(text))
}

/// 64 bytes in base64.
pub(crate) fn signature(text: &[u8]) -> Option<[u8; 64]>
    ensures { result ≡ fields.signature text.now }
{
    let mut bytes = [0u8; 64];
    match read_base64(text, &mut bytes) {
        Ok(()) => Some(bytes),
        Err(_) => None,
    }
}

/// Whether a text ends with a colon and a port.
fn is_address(text: &[u8]) -> bool
    ensures { result ≡ fields.is_address text.now }
{
    has_last(text, b':') && port_of(after_last(text, b':')).is_some()
}

/// Where a text stands that ends with a colon and a port.
pub(crate) fn address(argument: &Argument<'_>) -> Option<Span>
    requires { argument.now.place + length argument.now.text.now < 2 ^ 64 }
    ensures { result ≡ span_if (fields.is_address argument.now.text.now) (argument_of argument.now) }
{
    if is_address(argument.text) {
        Some(span(argument.place, argument.text))
    } else {
        None
    }
}

/// Two bytes in four hex digits.
fn group_of(text: &[u8]) -> Option<[u8; 2]>
    ensures { result ≡ fields.group_of text.now }
{
    let mut bytes = [0u8; 2];
    match read_hex(text, &mut bytes) {
        Ok(()) => Some(bytes),
        Err(_) => None,
    }
}

/// The group in front.
fn next_group(arguments: &mut Arguments<'_>, item: u64) -> Result<[u8; 2], u64>
    ensures group { result ≡ fields.group_in item arguments.old }
    ensures others { arguments.new ≡ others arguments.old }
{
    let argument = take_argument(arguments, item);
    field(&argument, group_of(argument.text))
}

/// The bytes of ten groups of four hex digits.
pub(crate) fn groups_of(arguments: &mut Arguments<'_>, item: u64) -> Result<[u8; 20], u64>
    ensures { result ≡ fields.groups_of 10 item arguments.old }
{
    let mut bytes = [0u8; 20];
    'groups: for i in 0..10usize {
        let group = next_group(arguments, item)?;
        bytes[2 * i] = group[0];
        bytes[2 * i + 1] = group[1];
    }
    Ok(bytes)
}
