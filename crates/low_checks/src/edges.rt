// The numbers that are enough by themselves: a relay at each of them, and one that is short of it by one.
use crate::flags::{NOW, names_under, relay};
use flag_rules::{Measured, RelayFacts, Ruling};
use std::alloc::Global;
use std::test::Fail;

/// A relay at an address of its own, above every number that is enough by itself.
fn strong(number: u8, wfu_ppm: u32) -> RelayFacts {
    RelayFacts {
        ip: u32::from(number),
        measured: Measured {
            reached_at: NOW,
            wmtbf: 1_000_000,
            wfu_ppm,
            known_for: 1_000_000,
            kb: None,
        },
        ..relay(number, 3_000)
    }
}

/// A relay at the very numbers that are enough by themselves.
fn edge() -> RelayFacts {
    RelayFacts {
        ip: 100,
        published: NOW - 64_800,
        uptime: 345_600,
        measured: Measured {
            reached_at: NOW - 2_700,
            wmtbf: 604_800,
            wfu_ppm: 900_000,
            known_for: 691_200,
            kb: None,
        },
        ..relay(1, 2_000)
    }
}

/// What is another of it.
#[derive(Clone, Copy)]
enum Change {
    Nothing,
    ReachedAt(u64),
    FailureTime(u64),
    Measured(u32),
    Said(u32),
    Uptime(u64),
    Published(u64),
    NoPort,
    Tunnelled,
    Exit,
    Hibernating,
}

/// The relay with this change.
fn changed(change: Change) -> RelayFacts {
    let mut facts = edge();
    match change {
        Change::Nothing => {}
        Change::ReachedAt(moment) => facts.measured.reached_at = moment,
        Change::FailureTime(seconds) => facts.measured.wmtbf = seconds,
        Change::Measured(kilobytes) => facts.measured.kb = Some(kilobytes),
        Change::Said(kilobytes) => facts.bandwidth_kb = kilobytes,
        Change::Uptime(seconds) => facts.uptime = seconds,
        Change::Published(moment) => facts.published = moment,
        Change::NoPort => facts.dir_port = 0,
        Change::Tunnelled => {
            facts.dir_port = 0;
            facts.tunnelled = true;
        }
        Change::Exit => facts.exit_web = true,
        Change::Hibernating => facts.hibernating = true,
    }
    facts
}

/// The names of the flags of the first of some relays, where the operator rules of one of this number.
fn first_names(
    alloc: Global,
    relays: &[RelayFacts],
    number: u8,
    ruling: Ruling,
) -> Result<Vec<u8>, Fail> {
    let mut names = names_under(alloc, relays, number, ruling)?;
    let end = names.iter().position(|byte| *byte == b'\n');
    names.truncate(end.unwrap_or(0));
    Ok(names)
}

/// The names of the flags of a relay among seven others.
fn names_among(alloc: Global, first: RelayFacts, ruling: Ruling) -> Result<Vec<u8>, Fail> {
    let relays = [
        first,
        strong(2, 900_000),
        strong(3, 900_000),
        strong(4, 900_000),
        strong(5, 900_000),
        strong(6, 900_000),
        strong(7, 900_000),
        strong(8, 900_000),
    ];
    first_names(alloc, &relays, 1, ruling)
}

const CHANGES: [(Change, Ruling, &[u8]); 15] = [
    (
        Change::Nothing,
        Ruling::Approve,
        b"Fast Guard HSDir Running Stable V2Dir Valid",
    ),
    (Change::ReachedAt(NOW - 2_701), Ruling::Approve, b"Valid"),
    (Change::ReachedAt(NOW + 1), Ruling::Approve, b"Valid"),
    (
        Change::FailureTime(604_799),
        Ruling::Approve,
        b"Fast Running V2Dir Valid",
    ),
    (
        Change::Measured(100),
        Ruling::Approve,
        b"Fast HSDir Running Stable V2Dir Valid",
    ),
    (
        Change::Measured(99),
        Ruling::Approve,
        b"Running Stable V2Dir Valid",
    ),
    (
        Change::Said(1_999),
        Ruling::Approve,
        b"Fast HSDir Running Stable V2Dir Valid",
    ),
    (
        Change::Uptime(345_599),
        Ruling::Approve,
        b"Fast Guard Running Stable V2Dir Valid",
    ),
    (
        Change::Published(NOW - 64_801),
        Ruling::Approve,
        b"Fast Guard HSDir Running Stable StaleDesc V2Dir Valid",
    ),
    (
        Change::NoPort,
        Ruling::Approve,
        b"Fast Running Stable Valid",
    ),
    (
        Change::Tunnelled,
        Ruling::Approve,
        b"Fast Guard HSDir Running Stable V2Dir Valid",
    ),
    (
        Change::Exit,
        Ruling::Approve,
        b"Exit Fast Guard HSDir Running Stable V2Dir Valid",
    ),
    (
        Change::Exit,
        Ruling::BadExit,
        b"BadExit Exit Fast Guard HSDir Running Stable V2Dir Valid",
    ),
    (Change::Exit, Ruling::Invalid, b"Running"),
    (Change::Hibernating, Ruling::Approve, b"Valid"),
];

#[test]
fn each_number_is_enough_and_one_less_is_not(rt: HostRuntime) -> Result<(), Fail> {
    let mut row = 0u32;
    for (change, ruling, want) in CHANGES {
        row = row.wrapping_add(1);
        if names_among(rt.alloc(), changed(change), ruling)?.as_slice() != want {
            return Err(Fail::new(row));
        }
    }
    Ok(())
}

/// The names of the flags of a relay of small fractional uptime, among one that is known for so long and six others.
fn names_beside_known(alloc: Global, known_for: u64) -> Result<Vec<u8>, Fail> {
    let mut known = edge();
    known.measured.known_for = known_for;
    known.measured.wfu_ppm = 1;
    let relays = [
        strong(2, 500_000),
        known,
        strong(3, 500_000),
        strong(4, 500_000),
        strong(5, 900_000),
        strong(6, 900_000),
        strong(7, 900_000),
        strong(8, 900_000),
    ];
    first_names(alloc, &relays, 9, Ruling::Approve)
}

#[test]
fn a_familiar_relay_is_known_for_691200_seconds(rt: HostRuntime) -> Result<(), Fail> {
    let familiar = names_beside_known(rt.alloc(), 691_200)?;
    if familiar.as_slice() != b"Fast Guard HSDir Running Stable V2Dir Valid".as_slice() {
        return Err(Fail::new(691_200));
    }
    let other = names_beside_known(rt.alloc(), 691_199)?;
    if other.as_slice() != b"Fast HSDir Running Stable V2Dir Valid".as_slice() {
        return Err(Fail::new(691_199));
    }
    Ok(())
}
