// The addresses that an item of a policy speaks of.
ghost use Rattle.std.specs.Prelude.{◌≡◌, ◌≤◌, IsTrue, IfOk, map};
ghost use Rattle.exit_summary.specs.Policies as policies;

use dir_bytes::Memory;
use dir_values::{Net, PolicyItem};
use std::alloc::Global;

/// Whether a net has every IPv4 address.
pub(crate) fn is_every(net: &Net) -> bool
    ensures { result ≡ policies.is_every net.now }
{
    match net {
        Net::Star => true,
        Net::V4 { bits, .. } => *bits == 0,
        Net::V6 => false,
    }
}

/// Whether the addresses that share so many first bits with one lie wholly in the net of a prefix, which has bits of its own.
fn lies_in(address: u32, bits: u8, prefix: u32, prefix_bits: u8) -> bool
    requires { prefix_bits ≤ 32 }
    ensures { result ≡ policies.lies_in address bits prefix prefix_bits }
{
    prefix_bits <= bits && address as u64 / 2u64.pow((32 - prefix_bits) as u32) == prefix as u64
}

/// Whether the addresses are private: those of this network, of private ones (RFC 1918), of the host, and of the link.
fn is_private(address: u32, bits: u8) -> bool
    ensures { result ≡ policies.is_private address bits }
{
    lies_in(address, bits, 0, 8)
        || lies_in(address, bits, 10, 8)
        || lies_in(address, bits, 127, 8)
        || lies_in(address, bits, 169 * 256 + 254, 16)
        || lies_in(address, bits, 172 * 16 + 1, 12)
        || lies_in(address, bits, 192 * 256 + 168, 16)
}

/// How many addresses a net has that are not private. None is counted of every address, and none of IPv6.
fn addresses_of(net: Net) -> u64
    requires { IsTrue (policies.is_net net) }
    ensures { result ≡ policies.addresses_of net }
{
    match net {
        Net::V4 { address, bits } if !is_private(address, bits) => 2u64.pow((32 - bits) as u32),
        _ => 0,
    }
}

/// How many addresses an item that does not speak of all adds to those that are rejected.
fn rejects(item: &PolicyItem) -> u64
    requires { IsTrue (policies.is_net item.now.net) }
    ensures { result ≡ policies.rejects item.now }
{
    if item.accept {
        0
    } else {
        addresses_of(item.net)
    }
}

/// The same of each item, in order: it is asked once of each, and not for every port.
///
/// # Errors
/// `Memory` is want of memory.
pub(crate) fn counts_of(alloc: Global, items: &[PolicyItem]) -> Result<Vec<u64>, Memory>
    requires { policies.AreNets items.now }
    ensures { IfOk result (λ counts. counts.items ≡ map policies.rejects items.now) }
{
    let mut counts = Vec::with_capacity(alloc, items.len())?;
    for item in items {
        counts.push(rejects(item))?;
    }
    Ok(counts)
}
