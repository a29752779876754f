// What single arguments of an entry's items say.
ghost use Rattle.std.specs.Prelude.{◌≡◌, ◌<◌, ◌≤◌, ◌+◌, ◌^◌, length};
ghost use Rattle.dir_values.specs.Digests as digests;
ghost use Rattle.dir_values.specs.Taking.{argument_of};
ghost use Rattle.frame_values.specs.Fields.{span_if};
ghost use Rattle.relay_entries.specs.Fields as fields;

use crate::said::{Bandwidths, EdOpinion};
use dir_bytes::read_base64;
use dir_values::{Argument, Digest1, Digest2, Fingerprint, number_of, port_of};
use frame_values::{Span, span};
use list_values::Parts;

/// The identity that 27 characters of base64 spell.
pub fn identity(text: &[u8]) -> Option<Fingerprint>
    ensures { result ≡ fields.identity text.now }
{
    let mut bytes = [0u8; 20];
    match read_base64(text, &mut bytes) {
        Ok(()) => Some(Fingerprint(bytes)),
        Err(_) => None,
    }
}

/// The SHA-1 digest that 27 characters of base64 spell.
pub fn digest1(text: &[u8]) -> Option<Digest1>
    ensures { result ≡ digests.digest1 text.now }
{
    Digest1::read(text).ok()
}

/// The SHA-256 digest that 43 characters of base64 spell.
pub fn digest2(text: &[u8]) -> Option<Digest2>
    ensures { result ≡ digests.digest2 text.now }
{
    Digest2::read(text).ok()
}

/// How many bytes stand after the last colon.
fn after_colon(text: &[u8]) -> usize
    ensures count { result ≡ fields.after_colon text.now }
    ensures within { result ≤ length text.now }
{
    text.iter().rev().take_while(|byte| **byte != b':').count()
}

/// Whether a text ends with a colon and a port.
fn is_address(text: &[u8]) -> bool
    ensures { result ≡ fields.is_address text.now }
{
    let count = after_colon(text);
    count < text.len() && port_of(&text[text.len() - count..]).is_some()
}

/// Where a text stands that ends with a colon and a port.
pub fn address(argument: &Argument<'_>) -> Option<Span>
    requires { argument.now.place + length argument.now.text.now < 2 ^ 64 }
    ensures { result ≡ span_if (fields.is_address argument.now.text.now) (argument_of argument.now) }
{
    if is_address(argument.text) {
        Some(span(argument.place, argument.text))
    } else {
        None
    }
}

/// Bandwidths with the number that a text spells for `Bandwidth=`, if none was said before.
fn with_bandwidth(said: Bandwidths, text: &[u8]) -> Option<Bandwidths>
    ensures { result ≡ fields.with_bandwidth said text.now }
{
    if said.bandwidth.is_some() {
        return None;
    }
    match number_of(text) {
        Some(number) => Some(Bandwidths {
            bandwidth: Some(number),
            measured: said.measured,
        }),
        None => None,
    }
}

/// Bandwidths with the number that a text spells for `Measured=`, if none was said before.
fn with_measured(said: Bandwidths, text: &[u8]) -> Option<Bandwidths>
    ensures { result ≡ fields.with_measured said text.now }
{
    if said.measured.is_some() {
        return None;
    }
    match number_of(text) {
        Some(number) => Some(Bandwidths {
            bandwidth: said.bandwidth,
            measured: Some(number),
        }),
        None => None,
    }
}

/// Bandwidths with what one more argument says, if it may stand.
pub fn with_argument(said: Bandwidths, text: &[u8]) -> Option<Bandwidths>
    ensures { result ≡ fields.with_argument said text.now }
{
    if let Some(number) = text.strip_prefix(b"Bandwidth=") {
        return with_bandwidth(said, number);
    }
    if let Some(number) = text.strip_prefix(b"Measured=") {
        return with_measured(said, number);
    }
    Some(said)
}

/// Whether a text is numbers below 2 ^ 32 with commas between them.
fn are_methods(text: &[u8]) -> bool
    ensures { result ≡ fields.are_methods text.now }
{
    let mut parts = Parts::of(text);
    'parts: while let Some(part) = parts.next() {
        if number_of(part).is_none() {
            return false;
        }
    }
    true
}

/// Where methods stand.
pub fn methods(argument: &Argument<'_>) -> Option<Span>
    requires { argument.now.place + length argument.now.text.now < 2 ^ 64 }
    ensures { result ≡ span_if (fields.are_methods argument.now.text.now) (argument_of argument.now) }
{
    if are_methods(argument.text) {
        Some(span(argument.place, argument.text))
    } else {
        None
    }
}

/// What a text says of a relay's Ed25519 key.
pub fn ed_opinion(text: &[u8]) -> Option<EdOpinion>
    ensures { result ≡ fields.ed_opinion text.now }
{
    if text == b"none".as_slice() {
        return Some(EdOpinion::None);
    }
    match digest2(text) {
        Some(key) => Some(EdOpinion::Key(key.0)),
        None => None,
    }
}
