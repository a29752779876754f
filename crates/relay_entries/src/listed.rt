// What is remembered of the relays that a document lists.
ghost use Rattle.std.specs.Prelude.{◌≡◌, OnErr};
ghost use Rattle.frame_terms.specs.Refusals.{Becomes};
ghost use Rattle.relay_entries.specs.Listing as listing;

use crate::key_set::KeySet;
use crate::said::{EdOpinion, EntryValue, RelayLine};
use dir_values::Fingerprint;
use frame_terms::{FrameFault, FrameReason, ReadRefusal};
use std::alloc::Global;

/// What is remembered of the relays that a document lists, one in each entry.
#[derive(Debug, Drop)]
pub struct Listed {
    /// How many there are so far.
    pub count: u64,
    /// The identity of the last one.
    pub last: Option<Fingerprint>,
    /// The Ed25519 keys that they have.
    pub keys: KeySet,
}

/// No relay yet.
pub fn none_listed(alloc: Global) -> Listed
    ensures { result ≡ listing.none_listed }
{
    Listed {
        count: 0,
        last: None,
        keys: KeySet::new(alloc),
    }
}

/// Whether an identity comes after the last one.
fn is_next(last: Option<Fingerprint>, identity: Fingerprint) -> bool
    ensures { result ≡ listing.is_next last identity }
{
    match last {
        Some(last) => last.is_below(&identity),
        None => true,
    }
}

/// The refusal of an item that begins at a place.
fn refused(place: u64, reason: FrameReason) -> ReadRefusal
    ensures { result ≡ ReadRefusal.Frame (listing.fault_at place reason) }
{
    ReadRefusal::Frame(FrameFault { place, reason })
}

/// Remembers one more relay, if it comes after all before it.
fn note_relay(listed: &mut Listed, place: u64, relay: RelayLine) -> Result<(), ReadRefusal>
    ensures becomes { Becomes (listing.note_entry listed.old place (EntryValue.Relay relay)) listed.new result }
    ensures err { OnErr result (listed.new ≡ listed.old) }
{
    if !is_next(listed.last, relay.identity) {
        return Err(refused(place, FrameReason::Unsorted));
    }
    listed.last = Some(relay.identity);
    listed.count = listed.count.saturating_add(1);
    Ok(())
}

/// Remembers one more key, if no relay before has it.
fn note_key(listed: &mut Listed, place: u64, key: [u8; 32]) -> Result<(), ReadRefusal>
    ensures becomes { Becomes (listing.note_entry listed.old place (EntryValue.Ed (EdOpinion.Key key))) listed.new result }
    ensures err { OnErr result (listed.new ≡ listed.old) }
{
    if !listed.keys.insert(key)? {
        return Err(refused(place, FrameReason::DuplicateEd));
    }
    Ok(())
}

/// Remembers what an item says that begins at a place.
///
/// # Errors
/// `Unsorted` of a relay that does not come after the last one, `DuplicateEd` of a key that a relay before has, or want of
/// memory. What is remembered stays as it was.
pub fn note_entry(listed: &mut Listed, place: u64, said: EntryValue) -> Result<(), ReadRefusal>
    ensures becomes { Becomes (listing.note_entry listed.old place said) listed.new result }
    ensures err { OnErr result (listed.new ≡ listed.old) }
{
    match said {
        EntryValue::Relay(relay) => note_relay(listed, place, relay),
        EntryValue::Ed(EdOpinion::Key(key)) => note_key(listed, place, key),
        _ => Ok(()),
    }
}
