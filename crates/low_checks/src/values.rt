// Rosters, versions of Tor, and the ports of a summary.
use dir_values::{Fingerprint, PortSummary, Roster, RosterFault, TorVersion, compare_named};
use std::test::Fail;

#[test]
fn a_roster_has_each_member_once(rt: HostRuntime) -> Result<(), Fail> {
    let first = Fingerprint([1; 20]);
    let second = Fingerprint([2; 20]);
    let twice = Roster::new([first, second, first].to_vec(rt.alloc())?).err();
    if twice != Some(RosterFault::Twice(first)) {
        return Err(Fail::new("no refusal"));
    }
    let Ok(roster) = Roster::new([first, second].to_vec(rt.alloc())?) else {
        return Err(Fail::new("a refusal"));
    };
    if !roster.copy(rt.alloc())?.contains(&second) {
        return Err(Fail::new("no member"));
    }
    Ok(())
}

// What a relay runs, each older than the next.
const ASCENDING: [&[u8]; 8] = [
    b"Torch 9.9.9",
    b"Tor 0.0.0",
    b"Tor 0.4.8",
    b"Tor 0.4.8.0-alpha",
    b"Tor 0.4.8.9",
    b"Tor 0.4.8.12",
    b"Tor 0.4.8.12-alpha",
    b"Tor 0.4.9.1-alpha-dev",
];

#[test]
fn versions_are_ordered_by_their_numbers() -> Result<(), Fail> {
    let mut older = ASCENDING[0];
    let mut row = 0u32;
    for newer in &ASCENDING[1..] {
        row = row.wrapping_add(1);
        if !compare_named(older, newer).is_lt() || !compare_named(newer, older).is_gt() {
            return Err(Fail::new(row));
        }
        older = newer;
    }
    Ok(())
}

// Texts, and whether they spell a version.
const VERSIONS: [(&[u8], bool); 6] = [
    (b"0.4.8", true),
    (b"0.4.8.12-rc", true),
    (b"0.4", false),
    (b"0.4.8.12.1", false),
    (b"0.4.8-", false),
    (b"v0.4.8", false),
];

#[test]
fn a_version_has_three_or_four_numbers() -> Result<(), Fail> {
    let mut row = 0u32;
    for (text, is_version) in VERSIONS {
        row = row.wrapping_add(1);
        if TorVersion::read(text).is_ok() != is_version {
            return Err(Fail::new(row));
        }
    }
    Ok(())
}

// Summaries, a port that each accepts, and one that it does not.
const SUMMARIES: [(&[u8], u16, u16); 4] = [
    (b"accept 80-80,443-00445 ignored", 445, 81),
    (b"accept 1-65535", 65535, 0),
    (b"reject 1-1023", 1024, 1023),
    (b"reject 25,65535", 26, 65535),
];

#[test]
fn a_summary_accepts_its_ports(rt: HostRuntime) -> Result<(), Fail> {
    for (text, accepted, rejected) in SUMMARIES {
        let ports = PortSummary::read(rt.alloc(), text)?;
        if !ports.accepts(accepted) || ports.accepts(rejected) {
            return Err(Fail::new(accepted));
        }
    }
    Ok(())
}
