// What single arguments of a station input say.
ghost use Rattle.std.specs.Prelude.{◌≡◌, ◌<◌, ◌+◌, ◌^◌, length};
ghost use Rattle.dir_values.specs.Taking.{argument_of};
ghost use Rattle.station_input.specs.Fields as fields;

use crate::identity_set::IdentitySet;
use dir_bytes::{read_address, read_u64};
use dir_values::{Argument, Fingerprint, after, before, number_of, port_of};
use flag_rules::Ruling;
use frame_values::{Span, fingerprint, span};

/// The number of at most 64 bits that a text spells.
pub(crate) fn long_number(text: &[u8]) -> Option<u64>
    ensures { result ≡ fields.long_number text.now }
{
    read_u64(text).ok()
}

/// Whether a text is an IPv4 address, a colon and a port.
fn is_peer(text: &[u8]) -> bool
    ensures { result ≡ fields.is_peer text.now }
{
    read_address(before(text, b':')).is_ok() && port_of(after(text, b':')).is_some()
}

/// Where an address and a port stand; or `-`, that there is none.
pub(crate) fn peer(argument: &Argument<'_>) -> Option<Option<Span>>
    requires { argument.now.place + length argument.now.text.now < 2 ^ 64 }
    ensures { result ≡ fields.peer (argument_of argument.now) }
{
    if argument.text == b"-".as_slice() {
        return Some(None);
    }
    if is_peer(argument.text) {
        Some(Some(span(argument.place, argument.text)))
    } else {
        None
    }
}

/// The ruling of this name.
pub(crate) fn ruling(text: &[u8]) -> Option<Ruling>
    ensures { result ≡ fields.ruling_named text.now }
{
    if text == b"approve".as_slice() {
        Some(Ruling::Approve)
    } else if text == b"reject".as_slice() {
        Some(Ruling::Reject)
    } else if text == b"invalid".as_slice() {
        Some(Ruling::Invalid)
    } else if text == b"badexit".as_slice() {
        Some(Ruling::BadExit)
    } else if text == b"middleonly".as_slice() {
        Some(Ruling::MiddleOnly)
    } else {
        None
    }
}

/// The identity that a text spells, if it is none of those before.
pub(crate) fn new_identity(earlier: &IdentitySet, text: &[u8]) -> Option<Fingerprint>
    ensures { result ≡ fields.new_identity earlier.now text.now }
{
    let identity = fingerprint(text)?;
    if earlier.contains(&identity) {
        None
    } else {
        Some(identity)
    }
}

/// A bandwidth in kilobytes a second; or `-`, that none was measured.
pub(crate) fn bandwidth(text: &[u8]) -> Option<Option<u32>>
    ensures { result ≡ fields.bandwidth text.now }
{
    if text == b"-".as_slice() {
        return Some(None);
    }
    Some(Some(number_of(text)?))
}
