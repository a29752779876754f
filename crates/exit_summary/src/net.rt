// The addresses that an item of a policy speaks of.
ghost use Rattle.std.specs.Prelude.{◌≡◌, ◌≤◌, IsTrue, IfSome, Some};
ghost use Rattle.dir_bytes.specs.Fields.{address};
ghost use Rattle.exit_summary.specs.Policies.{is_net};
ghost use Rattle.exit_summary.specs.PolicyItems as policies;

use crate::last::{after_last, before_last, has_last};
use dir_bytes::read_address;
use dir_values::{Net, number_of};

/// The number of bits that digits spell, up to a limit.
fn bits_up_to(limit: u8, text: &[u8]) -> Option<u8>
    ensures value { result ≡ policies.bits_up_to limit text.now }
    ensures within { IfSome result (λ bits. bits ≤ limit) }
{
    let bits = number_of(text)?;
    if bits <= limit as u32 {
        Some(bits as u8)
    } else {
        None
    }
}

/// The number of a mask's ones, if all of them stand first.
fn ones_of(mask: u32) -> Option<u8>
    ensures value { result ≡ policies.ones_of mask }
    ensures within { IfSome result (λ bits. bits ≤ 32) }
{
    let ones = mask.count_ones();
    if ones == mask.leading_ones() {
        Some(ones as u8)
    } else {
        None
    }
}

/// How many first bits of an IPv4 address count: their number, or a mask.
fn bits_of(text: &[u8]) -> Option<u8>
    ensures value { result ≡ policies.bits_of text.now }
    ensures within { IfSome result (λ bits. bits ≤ 32) }
{
    match bits_up_to(32, text) {
        Some(bits) => Some(bits),
        None => ones_of(read_address(text).ok()?),
    }
}

/// Whether a text stands in brackets.
fn is_bracketed(text: &[u8]) -> bool
    ensures { result ≡ policies.is_bracketed text.now }
{
    text.len() >= 2 && text[0] == b'[' && text[text.len() - 1] == b']'
}

/// The net of an address and the bits of it that count.
fn net_of_parts(base: &[u8], bits: &[u8]) -> Option<Net>
    ensures value { result ≡ policies.net_of_parts base.now bits.now }
    ensures net { IfSome result (λ net. IsTrue (is_net net)) }
{
    if is_bracketed(base) {
        let _ = bits_up_to(128, bits)?;
        return Some(Net::V6);
    }
    Some(Net::V4 {
        address: read_address(base).ok()?,
        bits: bits_of(bits)?,
    })
}

/// The net of an address of which all bits count.
fn host_of(text: &[u8]) -> Option<Net>
    ensures value { result ≡ policies.net_with (address text.now) (Some 32) }
    ensures net { IfSome result (λ net. IsTrue (is_net net)) }
{
    Some(Net::V4 {
        address: read_address(text).ok()?,
        bits: 32,
    })
}

/// The net that a text names.
pub(crate) fn net_of(text: &[u8]) -> Option<Net>
    ensures value { result ≡ policies.net_of text.now }
    ensures net { IfSome result (λ net. IsTrue (is_net net)) }
{
    if text == b"*".as_slice() {
        return Some(Net::Star);
    }
    if text == b"*4".as_slice() {
        return Some(Net::V4 {
            address: 0,
            bits: 0,
        });
    }
    if text == b"*6".as_slice() || is_bracketed(text) {
        return Some(Net::V6);
    }
    if has_last(text, b'/') {
        net_of_parts(before_last(text, b'/'), after_last(text, b'/'))
    } else {
        host_of(text)
    }
}
