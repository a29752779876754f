// The address of the `a` line.
ghost use Rattle.std.specs.{Prelude.{◌≡◌, true, false, [], ◌∷◌, IfOk, option_map, take}, List.find};
ghost use Rattle.vote_maker.specs.Entries as entries;

use crate::copies::copy;
use crate::entry::knows_34;
use count_terms::Newest;
use dir_bytes::{Memory, Seq, Text};
use std::alloc::Global;

/// Whether an address is one of IPv6.
fn is_ipv6(address: &[u8]) -> bool
    ensures { result ≡ entries.is_ipv6 address.now }
{
    address.starts_with(b"[")
}

/// Whether a byte is a digit or a small letter.
fn is_small(byte: u8) -> bool
    ensures { result ≡ entries.is_small byte }
{
    (48 <= byte && byte <= 57) || (97 <= byte && byte <= 122)
}

/// Whether a byte is a capital letter.
fn is_capital(byte: u8) -> bool
    ensures { result ≡ entries.is_capital byte }
{
    65 <= byte && byte <= 90
}

/// Whether an address is written without capital letters, and without a zero in front of a word.
fn is_plain(address: &[u8]) -> bool
    ensures { result ≡ entries.is_plain true false address.now }
{
    let mut begins = true;
    let mut zero = false;
    'bytes: for byte in address {
        if (zero && is_small(*byte)) || is_capital(*byte) {
            return false;
        }
        zero = begins && *byte == 48;
        begins = !is_small(*byte);
    }
    true
}

/// The first address of IPv6, where there is one.
fn first_ipv6(addresses: &[Text]) -> Option<&Text>
    ensures { option_map (λ text. text.now) result ≡ find entries.is_ipv6 addresses.now }
{
    'addresses: for address in addresses {
        if is_ipv6(address.as_bytes()) {
            return Some(address);
        }
    }
    None
}

/// An address alone.
///
/// # Errors
/// `Memory` is want of memory.
fn alone(alloc: Global, address: &Text) -> Result<Seq<Text>, Memory>
    ensures { IfOk result (λ made. made ≡ address.now ∷ []) }
{
    let mut made = Vec::with_capacity(alloc, 1)?;
    made.push(copy(alloc, address)?)?;
    Ok(Seq::new(made))
}

/// An address, where it is written without capital letters, and without a zero in front of a word.
///
/// # Errors
/// `Memory` is want of memory.
fn if_plain(alloc: Global, address: Option<&Text>) -> Result<Seq<Text>, Memory>
    ensures { IfOk result (λ made. made ≡ entries.if_plain (option_map (λ text. text.now) address.entry)) }
{
    match address {
        Some(address) => {
            if is_plain(address.as_bytes()) {
                alone(alloc, address)
            } else {
                Ok(Seq::new(Vec::new(alloc)))
            }
        }
        None => Ok(Seq::new(Vec::new(alloc))),
    }
}

/// The first of some addresses, where there is one.
///
/// # Errors
/// `Memory` is want of memory.
fn first_address(alloc: Global, addresses: &[Text]) -> Result<Seq<Text>, Memory>
    ensures { IfOk result (λ first. first ≡ take 1 addresses.now) }
{
    match addresses.first() {
        Some(address) => alone(alloc, address),
        None => Ok(Seq::new(Vec::new(alloc))),
    }
}

/// The address of the `a` line of a relay with these addresses, by the newest method that is known.
///
/// # Errors
/// `Memory` is want of memory.
pub(crate) fn made_addresses(
    alloc: Global,
    newest: Newest,
    addresses: &[Text],
) -> Result<Seq<Text>, Memory>
    ensures { IfOk result (λ made. made ≡ entries.made_addresses newest addresses.now) }
{
    if knows_34(newest) {
        if_plain(alloc, first_ipv6(addresses))
    } else {
        first_address(alloc, addresses)
    }
}
