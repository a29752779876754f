// Summaries of policies.
ghost use Rattle.std.specs.Prelude.{◌≡◌, IfOk, IsTrue};
ghost use Rattle.exit_summary.specs.Policies as policies;

use dir_bytes::Memory;
use dir_values::{Net, PolicyItem};
use exit_summary::summary;
use std::alloc::Global;
use std::test::Fail;

// An item of one port.
fn of_port(accept: bool, net: Net, port: u16) -> PolicyItem
    ensures { result.net ≡ net }
{
    PolicyItem {
        accept,
        net,
        low: port,
        high: port,
    }
}

// An item of every address and port.
fn of_all(accept: bool) -> PolicyItem
    ensures { IsTrue (policies.is_net result.net) }
{
    PolicyItem {
        accept,
        net: Net::Star,
        low: 1,
        high: 65535,
    }
}

// The text of a policy's summary.
fn text_of(alloc: Global, items: &[PolicyItem]) -> Result<Vec<u8>, Memory>
    requires { policies.AreNets items.now }
{
    let mut out = Vec::new(alloc);
    summary(alloc, items)?.push(&mut out)?;
    Ok(out)
}

// The addresses whose first bits are those of one.
type Addresses = (u32, u8);

// Whether a policy that rejects port 80 of two nets, and accepts all else, accepts that port.
fn accepts_beside(alloc: Global, first: Addresses, second: Addresses) -> Result<bool, Memory> {
    if first.1 > 32 || second.1 > 32 {
        return Ok(false);
    }
    let [one, other] = [first, second].map(|(address, bits)| Net::V4 { address, bits });
    let items = [
        of_port(false, one, 80),
        of_port(false, other, 80),
        of_all(true),
    ];
    Ok(text_of(alloc, &items)?.as_slice() == b"accept 1-65535".as_slice())
}

// Two nets of 8 bits, which may be rejected.
const MOST: Addresses = (0x0400_0000, 7);

// The nets of private addresses and the next wider ones, and whether their addresses are counted.
const NETS: [(Addresses, bool); 16] = [
    ((0x0000_0000, 8), false),
    ((0x0000_0000, 7), true),
    ((0x0A00_0000, 8), false),
    ((0x0A00_0000, 7), true),
    ((0x7F00_0000, 8), false),
    ((0x7F00_0000, 7), true),
    ((0xA9FE_0000, 16), false),
    ((0xA9FE_0000, 15), true),
    ((0xAC10_0000, 12), false),
    ((0xAC10_0000, 11), true),
    ((0xC0A8_0000, 16), false),
    ((0xC0A8_0000, 15), true),
    ((0x7F00_0001, 32), false),
    ((0xAC1F_FFFF, 32), false),
    ((0xAC20_0000, 32), true),
    ((0x0100_0000, 32), true),
];

#[test]
fn private_addresses_are_not_counted(rt: HostRuntime) -> Result<(), Fail> {
    let mut row = 0u32;
    for (net, is_counted) in NETS {
        row = row.wrapping_add(1);
        if accepts_beside(rt.alloc(), MOST, net)? == is_counted {
            return Err(Fail::new(row));
        }
    }
    Ok(())
}

// Nets of which port 80 is rejected beside a private one, and whether it is accepted.
const SIZES: [(Addresses, bool); 5] = [
    ((0x0200_0000, 8), true),
    ((0x0400_0000, 7), true),
    ((0x0800_0000, 6), false),
    ((0x8000_0000, 1), false),
    ((0x0000_0000, 0), false),
];

#[test]
fn two_nets_of_8_bits_may_be_rejected(rt: HostRuntime) -> Result<(), Fail> {
    let mut row = 0u32;
    for (net, is_accepted) in SIZES {
        row = row.wrapping_add(1);
        if accepts_beside(rt.alloc(), net, (0x0A00_0000, 8))? != is_accepted {
            return Err(Fail::new(row));
        }
    }
    Ok(())
}

// A policy that accepts one port, and rejects or accepts all else.
fn text_of_one(alloc: Global, net: Net, port: u16, rest: bool) -> Result<Vec<u8>, Memory>
    requires { IsTrue (policies.is_net net) }
{
    text_of(alloc, &[of_port(!rest, net, port), of_all(rest)])
}

#[test]
fn the_first_item_of_every_address_decides(rt: HostRuntime) -> Result<(), Fail> {
    let alloc = rt.alloc();
    let every = Net::V4 {
        address: 0,
        bits: 0,
    };
    let accepted = text_of_one(alloc, every, 80, false)?;
    let rejected = text_of_one(alloc, Net::Star, 80, true)?;
    let passed_over = text_of_one(alloc, Net::V6, 80, true)?;
    if accepted.as_slice() != b"accept 80".as_slice()
        || rejected.as_slice() != b"reject 80".as_slice()
    {
        return Err(Fail::new("another port"));
    }
    if passed_over.as_slice() != b"accept 1-65535".as_slice() {
        return Err(Fail::new("a port of IPv6"));
    }
    Ok(())
}

#[test]
fn a_policy_may_say_the_same_of_every_port(rt: HostRuntime) -> Result<(), Fail> {
    let alloc = rt.alloc();
    let nothing = text_of(alloc, &[of_all(false)])?;
    let empty = text_of(alloc, &[])?;
    let ends = [
        of_port(true, Net::Star, 1),
        of_port(true, Net::Star, 65535),
        of_all(false),
    ];
    // Of two lists of one length the accepting one is given.
    let tie = text_of(alloc, &ends)?;
    if nothing.as_slice() != b"reject 1-65535".as_slice()
        || empty.as_slice() != b"accept 1-65535".as_slice()
    {
        return Err(Fail::new("not every port"));
    }
    if tie.as_slice() != b"accept 1,65535".as_slice() {
        return Err(Fail::new("another list"));
    }
    Ok(())
}

// A policy that accepts a port and so many, every other one from the second on, and rejects all else.
fn odd_ports(alloc: Global, port: u16, from: u16, count: u16) -> Result<Vec<PolicyItem>, Memory>
    ensures { IfOk result (λ items. policies.AreNets items.items) }
{
    let mut items = Vec::new(alloc);
    items.push(of_port(true, Net::Star, port))?;
    let mut next = from;
    for i in 0..count {
        items.push(of_port(true, Net::Star, next))?;
        next = next.wrapping_add(2);
    }
    items.push(of_all(false))?;
    Ok(items)
}

// A port, the first and the number of others, the length of the text, its last port and the next port.
const LISTS: [(u16, u16, u16, usize, u16, u16); 3] = [
    // Exactly 1,000 bytes.
    (100, 10000, 165, 1000, 10328, 10330),
    // A byte more, without the last port.
    (1000, 10000, 165, 995, 10326, 10328),
    // 5,000 items: 5 ports of a digit, 45 of two and 212 of three.
    (1, 3, 4998, 999, 523, 525),
];

#[test]
fn a_list_of_1000_bytes_is_whole_and_a_longer_one_is_cut(rt: HostRuntime) -> Result<(), Fail> {
    for (port, from, count, length, last, next) in LISTS {
        let items = odd_ports(rt.alloc(), port, from, count)?;
        let ports = summary(rt.alloc(), &items)?;
        let text = text_of(rt.alloc(), &items)?;
        if text.len() != length || !ports.accepts(last) || ports.accepts(next) {
            return Err(Fail::new(length));
        }
    }
    Ok(())
}
