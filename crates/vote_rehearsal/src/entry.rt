// What a vote of a rehearsal says of relays.
ghost use Rattle.std.specs.Prelude.{◌≡◌, ◌++◌, ◌∷◌, [], IfOk, OnOk};
ghost use Rattle.vote_rehearsal.specs.Entries as entries;

use crate::draws::drawn;
use crate::names::numbered;
use crate::relay::Relay;
use dir_bytes::{Memory, Seq, Text};
use flag_rules::Flags;
use relay_entries::{Bandwidths, EdOpinion};
use std::alloc::Global;
use vote_terms::{EntryFacts, MicroFacts};

/// Whether an authority that drew this lists the relay.
fn lists(draw: u32) -> bool
    ensures { result ≡ entries.lists draw }
{
    draw % 16 != 0
}

/// The flags that an authority gives which drew this.
fn flags_drawn(draw: u32) -> Flags
    ensures { result ≡ entries.flags_drawn draw }
{
    Flags {
        bad_exit: false,
        exit: draw / 512 % 3 == 0,
        fast: false,
        guard: draw / 256 % 2 == 1,
        hs_dir: false,
        middle_only: draw / 4096 % 64 == 0,
        running: draw / 16 % 16 != 0,
        stable: false,
        stale_desc: false,
        sybil: false,
        v2_dir: false,
        valid: true,
    }
}

/// The bandwidth of a relay that drew the first number, by an authority that drew the second, and what that measured.
fn bandwidths_drawn(base: u32, draw: u32, authority: u8) -> Bandwidths
    ensures { result ≡ entries.bandwidths_drawn base draw authority }
{
    let bandwidth = 1 + base % 50000 + draw / 8_388_608 % 8;
    Bandwidths {
        bandwidth: Some(bandwidth),
        measured: if authority % 2 == 1 {
            Some(bandwidth + 1)
        } else {
            None
        },
    }
}

/// What an authority that drew this says of the Ed25519 identity of a relay with this key.
fn opinion_drawn(draw: u32, ed: [u8; 32]) -> EdOpinion
    ensures { result ≡ entries.opinion_drawn draw ed }
{
    if draw / 262_144 % 32 == 0 {
        EdOpinion::Absent
    } else {
        EdOpinion::Key(ed)
    }
}

/// The summary of the exit policy of the relay with a number.
fn policy_of(number: u16) -> &'static [u8]
    ensures { result.now ≡ entries.policy_of number }
{
    if number % 2 == 0 {
        b"accept 80,443"
    } else {
        b"reject 1-65535"
    }
}

/// The one consensus method that votes list.
///
/// # Errors
/// `Memory` is want of memory.
pub(crate) fn only_method(alloc: Global) -> Result<Seq<u32>, Memory>
    ensures { IfOk result (λ methods. methods ≡ entries.only_method) }
{
    let mut methods = Vec::with_capacity(alloc, 1)?;
    methods.push(32)?;
    Ok(Seq::new(methods))
}

/// The `m` line of a relay.
fn micro_lines(alloc: Global, relay: &Relay) -> Result<Seq<MicroFacts>, Memory>
    ensures { IfOk result (λ lines. lines ≡ entries.micro_of relay.now ∷ []) }
{
    let mut lines = Vec::with_capacity(alloc, 1)?;
    lines.push(MicroFacts {
        methods: only_method(alloc)?,
        digest: relay.micro,
    })?;
    Ok(Seq::new(lines))
}

/// What the authority with a number, that drew this, says of a relay.
///
/// # Errors
/// `Memory` is want of memory.
#[tactic(auto, unfolding(crate::specs::Entries::entry_of))]
fn entry_of(alloc: Global, relay: &Relay, authority: u8, draw: u32) -> Result<EntryFacts, Memory>
    ensures { IfOk result (λ entry. entry ≡ entries.entry_of relay.now authority draw) }
{
    let base = drawn(relay.start, 0);
    Ok(EntryFacts {
        nickname: Text::new(numbered(alloc, b"relay", relay.number as u32)?),
        identity: relay.identity,
        digest: relay.digest,
        published: 1_767_222_000,
        ip: 167_772_160 + relay.number as u32,
        or_port: 9001,
        dir_port: 0,
        addresses: Seq::new(Vec::new(alloc)),
        flags: flags_drawn(draw).names(alloc)?,
        version: None,
        protocols: None,
        bandwidths: Some(bandwidths_drawn(base, draw, authority)),
        policy: Some(Text::copy_of(alloc, policy_of(relay.number))?),
        micros: micro_lines(alloc, relay)?,
        ed: opinion_drawn(draw, relay.ed),
    })
}

/// Appends the entry of a relay in the vote of the authority with a number, if it has one.
///
/// # Errors
/// `Memory` is want of memory.
fn push_entry(
    out: &mut Vec<EntryFacts>,
    alloc: Global,
    relay: &Relay,
    authority: u8,
) -> Result<(), Memory>
    ensures { OnOk result (out.new.items ≡ out.old.items ++ entries.entry_in authority relay.now) }
{
    let draw = drawn(relay.start, authority as u32);
    if lists(draw) {
        out.push(entry_of(alloc, relay, authority, draw)?)?;
    }
    Ok(())
}

/// The entries of relays in the vote of the authority with a number.
///
/// # Errors
/// `Memory` is want of memory.
pub(crate) fn entries_of(
    alloc: Global,
    relays: &[Relay],
    authority: u8,
) -> Result<Seq<EntryFacts>, Memory>
    ensures { IfOk result (λ found. found ≡ entries.entries_of relays.now authority) }
{
    let mut found = Vec::with_capacity(alloc, relays.len())?;
    'relays: for relay in relays {
        push_entry(&mut found, alloc, relay, authority)?;
    }
    Ok(Seq::new(found))
}
