// Which relays have an entry, and their entries.
ghost use Rattle.std.specs.Prelude.{◌≡◌, ◌≤◌, ◌<◌, ◌++◌, IfOk, OnOk, length, slice_index_or};
ghost use Rattle.flag_rules.specs.{Relays.ruled_relays, Rulings.is_reject};
ghost use Rattle.vote_maker.specs.Listings as listings;
ghost use Rattle.vote_maker.specs.Private as walks;

use crate::entry::made_entry;
use count_terms::Newest;
use dir_bytes::Memory;
use flag_rules::{Flags, RelayFacts, Ruling};
use key_port::Verifier;
use relay_entries::KeySet;
use std::alloc::Global;
use vote_pool::{Pool, PoolEntry};
use vote_terms::EntryFacts;

/// Whether a relay is left out.
fn is_rejected(ruling: Ruling) -> bool
    ensures { result ≡ is_reject ruling }
{
    matches!(ruling, Ruling::Reject)
}

/// Whether a relay has an entry behind others, of which these are the keys; and puts its own key to them, unless it
/// is rejected.
///
/// # Errors
/// `Memory` is want of memory.
fn note_relay(keys: &mut KeySet, ruling: Ruling, key: &Option<[u8; 32]>) -> Result<bool, Memory>
    ensures listed { IfOk result (λ listed. listed ≡ walks.is_listed keys.old ruling key.now) }
    ensures keys { OnOk result (keys.new ≡ walks.keys_after keys.old ruling key.now) }
{
    if is_rejected(ruling) {
        return Ok(false);
    }
    match key {
        None => Ok(true),
        Some(key) => Ok(keys.insert(*key)?),
    }
}

/// The ruling of the relay at a place.
fn ruling_at(rulings: &[Ruling], i: usize) -> Ruling
    requires { i < length rulings.now }
    ensures { result ≡ slice_index_or rulings.now i result }
{
    rulings[i]
}

/// What is known of the relay at a place.
fn known_at(known: &[RelayFacts], i: usize) -> &RelayFacts
    requires { i < length known.now }
    ensures { result.now ≡ slice_index_or known.now i result.now }
{
    &known[i]
}

/// The flags of the relay at a place.
fn flags_at(flags: &[Flags], i: usize) -> &Flags
    requires { i < length flags.now }
    ensures { result.now ≡ slice_index_or flags.now i result.now }
{
    &flags[i]
}

/// Appends the entry of a relay of which this is known, with these flags, if it has one, by the newest method that is known.
///
/// # Errors
/// `Memory` is want of memory.
fn push_entry_if<V: Verifier>(
    out: &mut Vec<EntryFacts>,
    alloc: Global,
    newest: Newest,
    listed: bool,
    entry: &PoolEntry<V>,
    known: &RelayFacts,
    flags: &Flags,
) -> Result<(), Memory>
    ensures { OnOk result (out.new.items ≡ out.old.items ++ walks.entry_if newest listed entry.now known.now flags.now) }
{
    if listed {
        out.push(made_entry(alloc, newest, entry, known, flags)?)?;
    }
    Ok(())
}

/// The entries of the relays of a pool from one place to another, of which this is known and ruled, with these flags, by the
/// newest method that is known, behind others that have these keys; theirs are put to them.
///
/// # Errors
/// `Memory` is want of memory.
pub(crate) fn entries_between<V: Verifier>(
    keys: &mut KeySet,
    alloc: Global,
    newest: Newest,
    pool: &Pool<V>,
    known: &[RelayFacts],
    rulings: &[Ruling],
    flags: &[Flags],
    start: usize,
    end: usize,
) -> Result<Vec<EntryFacts>, Memory>
    requires many { walks.AreAsMany pool.now.descriptors known.now rulings.now flags.now }
    requires order { start ≤ end }
    requires within { end ≤ length pool.now.descriptors }
    ensures { IfOk result (λ entries. walks.AreBetween newest (listings.judged_relays pool.now.descriptors (ruled_relays known.now rulings.now) flags.now) start end keys.old entries.items keys.new) }
{
    let mut entries = Vec::with_capacity(alloc, end - start)?;
    'relays: for i in start..end {
        let entry = pool.entry(i);
        let key = &entry.descriptor().ed_key;
        let listed = note_relay(keys, ruling_at(rulings, i), key)?;
        push_entry_if(
            &mut entries,
            alloc,
            newest,
            listed,
            entry,
            known_at(known, i),
            flags_at(flags, i),
        )?;
    }
    Ok(entries)
}
