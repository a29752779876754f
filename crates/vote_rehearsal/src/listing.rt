// The relays that votes list.
ghost use Rattle.std.specs.{Prelude.{◌≡◌, IfOk, OnOk, if◌then◌else◌}, BTreeMap.values};
ghost use Rattle.std.specs.FinSet as set;
ghost use Rattle.vote_rehearsal.specs.Private.{is_new};
ghost use Rattle.vote_rehearsal.specs.Relays as relay_terms;

use crate::draws::number_after;
use crate::identities::Identities;
use crate::relay::{Relay, relay_at};
use dir_bytes::Memory;
use relay_entries::KeySet;
use std::alloc::Global;
use std::collections::BTreeMap;

/// Whether a relay has no identity of one that is known. It is known then.
///
/// # Errors
/// `Memory` is want of memory.
fn note_relay(identities: &mut Identities, keys: &mut KeySet, relay: &Relay) -> Result<bool, Memory>
    ensures new { IfOk result (λ new. new ≡ is_new identities.old keys.old relay.now) }
    ensures identities { OnOk result (identities.new ≡ set.insert identities.old relay.now.identity.0) }
    ensures keys { OnOk result (keys.new ≡ set.insert keys.old relay.now.ed) }
{
    let new_identity = identities.insert(&relay.identity)?;
    let new_key = keys.insert(relay.ed)?;
    Ok(new_identity && new_key)
}

/// Puts a relay to others, if it is listed.
///
/// # Errors
/// `Memory` is want of memory.
fn put_if(relays: &mut BTreeMap<[u8; 20], Relay>, listed: bool, relay: Relay) -> Result<(), Memory>
    ensures { OnOk result (relays.new.entries ≡ (if listed then relay_terms.with_relay relays.old.entries relay else relays.old.entries)) }
{
    if listed {
        relays.insert(relay.identity.0, relay)?;
    }
    Ok(())
}

/// The relays that votes list, of so many, by their identities.
///
/// # Errors
/// `Memory` is want of memory.
fn relay_map(
    alloc: Global,
    seed: u64,
    relays: u16,
    authorities: u8,
) -> Result<BTreeMap<[u8; 20], Relay>, Memory>
    ensures { IfOk result (λ listed. listed.entries ≡ relay_terms.by_identity (relay_terms.listed_relays seed authorities relays)) }
{
    let mut identities = Identities::new(alloc);
    let mut keys = KeySet::new(alloc);
    let mut listed: BTreeMap<[u8; 20], Relay> = BTreeMap::new(alloc);
    let mut start = seed;
    'relays: for number in 0..relays {
        let relay = relay_at(alloc, seed, number, start)?;
        let new = note_relay(&mut identities, &mut keys, &relay)?;
        put_if(&mut listed, new, relay)?;
        start = number_after(start, authorities as u32 + 1);
    }
    Ok(listed)
}

/// The relays of a map, in its order.
///
/// # Errors
/// `Memory` is want of memory.
fn relays_in(alloc: Global, listed: &BTreeMap<[u8; 20], Relay>) -> Result<Vec<Relay>, Memory>
    ensures { IfOk result (λ found. found.items ≡ values listed.now) }
{
    let mut found = Vec::with_capacity(alloc, listed.len())?;
    'relays: for relay in listed.values() {
        found.push(*relay)?;
    }
    Ok(found)
}

/// The relays that votes list, of so many, ascending by identity.
///
/// # Errors
/// `Memory` is want of memory.
#[tactic(auto, unfolding(crate::specs::Relays::ascending_relays))]
pub(crate) fn ascending_relays(
    alloc: Global,
    seed: u64,
    relays: u16,
    authorities: u8,
) -> Result<Vec<Relay>, Memory>
    ensures { IfOk result (λ found. found.items ≡ relay_terms.ascending_relays seed authorities relays) }
{
    let listed = relay_map(alloc, seed, relays, authorities)?;
    relays_in(alloc, &listed)
}
