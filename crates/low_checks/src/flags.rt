// Flags of relays under rulings, and how often the hook is asked.
ghost use Rattle.std.specs.Prelude.{◌≡◌};
ghost use Rattle.flag_rules.specs.{declared.ruling.Ruling.TheVariants.Approve, Rules.ruling_for};

use dir_values::Fingerprint;
use flag_rules::{
    Flags, Hook, Measured, OperatorList, OperatorRule, RelayFacts, Rules, Ruling, assign,
};
use std::alloc::Global;
use std::cell::Cell;
use std::test::Fail;

pub(crate) const NOW: u64 = 1_000_000;

/// A relay at one address.
pub(crate) fn relay(number: u8, bandwidth_kb: u32) -> RelayFacts {
    RelayFacts {
        identity: Fingerprint([number; 20]),
        published: NOW,
        ip: 3_221_225_985,
        dir_port: 80,
        tunnelled: false,
        hibernating: false,
        uptime: 400_000,
        bandwidth_kb,
        exit_web: false,
        measured: Measured {
            reached_at: NOW,
            wmtbf: 10,
            wfu_ppm: 900_000,
            known_for: 0,
            kb: None,
        },
    }
}

/// The names of relays' flags, a line for each relay, where the operator rules of one of them.
pub(crate) fn names_under(
    alloc: Global,
    relays: &[RelayFacts],
    number: u8,
    ruling: Ruling,
) -> Result<Vec<u8>, Fail> {
    let mut rules = Vec::new(alloc);
    rules.push(OperatorRule {
        identity: Fingerprint([number; 20]),
        ruling,
    })?;
    let list = OperatorList::new(rules)?;
    let by_list = |facts: RelayFacts| -> Ruling
        ensures { result ≡ ruling_for list facts.identity }
    { list.ruling(&facts) };
    let given = assign(alloc, relays, &Hook::new(&list, by_list), NOW)?;
    lines_of(alloc, given.flags.as_slice())
}

/// The names of flags, a line for each relay.
fn lines_of(alloc: Global, flags: &[Flags]) -> Result<Vec<u8>, Fail> {
    let mut lines = Vec::new(alloc);
    for flags in flags {
        flags.names(alloc)?.push(&mut lines)?;
        lines.push(b'\n')?;
    }
    Ok(lines)
}

// Three relays at one address, of 300, 200 and 100 kilobytes: the number of one, its ruling, and the flags of all.
const RULINGS: [(u8, Ruling, &[u8]); 5] = [
    (
        1,
        Ruling::Approve,
        b"Fast Guard HSDir Running Stable V2Dir Valid\nFast HSDir Running Stable V2Dir Valid\nSybil\n",
    ),
    (
        1,
        Ruling::MiddleOnly,
        b"BadExit Fast MiddleOnly Running Stable Valid\nFast HSDir Running Stable V2Dir Valid\nSybil\n",
    ),
    (
        2,
        Ruling::Invalid,
        b"Fast Guard HSDir Running Stable V2Dir Valid\nRunning\nSybil\n",
    ),
    (
        1,
        Ruling::Reject,
        b"\nFast Guard HSDir Running Stable V2Dir Valid\nFast HSDir Running Stable V2Dir Valid\n",
    ),
    (
        3,
        Ruling::BadExit,
        b"Fast Guard HSDir Running Stable V2Dir Valid\nFast HSDir Running Stable V2Dir Valid\nSybil\n",
    ),
];

#[test]
fn the_third_of_an_address_is_a_sybil_unless_one_is_rejected(rt: HostRuntime) -> Result<(), Fail> {
    let relays = [relay(1, 300), relay(2, 200), relay(3, 100)];
    for (number, ruling, want) in RULINGS {
        if names_under(rt.alloc(), &relays, number, ruling)?.as_slice() != want {
            return Err(Fail::new(number));
        }
    }
    Ok(())
}

const EQUAL: &[u8] =
    b"Sybil\nFast Guard HSDir Running Stable V2Dir Valid\nFast Guard HSDir Running Stable V2Dir Valid\n";

#[test]
fn of_equal_bandwidths_the_greater_identity_is_a_sybil(rt: HostRuntime) -> Result<(), Fail> {
    let relays = [relay(3, 200), relay(1, 200), relay(2, 200)];
    if names_under(rt.alloc(), &relays, 9, Ruling::Approve)?.as_slice() != EQUAL {
        return Err(Fail::new("other flags"));
    }
    if !names_under(rt.alloc(), &[], 9, Ruling::Approve)?.is_empty() {
        return Err(Fail::new("flags of no relay"));
    }
    Ok(())
}

/// A relay at an address of its own, reached at this moment, with this mean time between failures.
fn lasting(number: u8, reached_at: u64, wmtbf: u64, wfu_ppm: u32, kilobytes: u32) -> RelayFacts {
    RelayFacts {
        ip: u32::from(number),
        measured: Measured {
            reached_at,
            wmtbf,
            wfu_ppm,
            known_for: 0,
            kb: None,
        },
        ..relay(number, kilobytes)
    }
}

const ACTIVE: &[u8] = b"Fast Guard HSDir Running Stable V2Dir Valid\n\
Fast Running V2Dir Valid\n\
Fast Guard HSDir Running Stable V2Dir Valid\n\
Valid\n\
Valid\n\
Valid\n\
Valid\n\
";

#[test]
fn relays_that_are_not_active_have_no_say(rt: HostRuntime) -> Result<(), Fail> {
    let relays = [
        lasting(1, NOW, 20, 900_000, 300),
        lasting(2, NOW, 10, 900_000, 300),
        lasting(3, NOW, 30, 900_000, 300),
        lasting(4, 0, 600_000, 1_000_000, 1_999),
        lasting(5, 0, 600_000, 1_000_000, 1_999),
        lasting(6, 0, 600_000, 1_000_000, 1_999),
        lasting(7, 0, 600_000, 1_000_000, 1_999),
    ];
    if names_under(rt.alloc(), &relays, 9, Ruling::Approve)?.as_slice() != ACTIVE {
        return Err(Fail::new("other flags"));
    }
    Ok(())
}

/// Rules that allow every ruling.
#[derive(Drop)]
struct AnyRuling;

impl Rules for AnyRuling {
    ghost use Rattle.std.specs.Prelude.{true};

    ghost allows = { λ rules facts ruling. true };
}

#[test]
fn the_hook_is_asked_once_for_each_relay(rt: HostRuntime) -> Result<(), Fail> {
    let calls = Cell::new(0u32);
    let count = |facts: RelayFacts| -> Ruling
        ensures { result ≡ Approve }
    {
        let number = calls.get();
        calls.set(number.wrapping_add(1));
        Ruling::Approve
    };
    let relays = [relay(1, 300), relay(2, 200), relay(3, 100)];
    let hook = Hook::new(AnyRuling, count);
    let given = assign(rt.alloc(), &relays, &hook, NOW)?;
    if given.rulings.len() != 3 || calls.get() != 3 {
        return Err(Fail::new("another number"));
    }
    Ok(())
}
