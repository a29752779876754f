// The entries of a vote, made and written some at a time.
ghost use Rattle.std.specs.Prelude.{◌≡◌, ◌≤◌, ◌<◌, ◌++◌, [], IfOk, OnOk, length};
ghost use Rattle.flag_rules.specs.Relays.{ruled_relays};
ghost use Rattle.vote_maker.specs.Listings as listings;
ghost use Rattle.vote_maker.specs.Private as walks;

use crate::listing::entries_between;
use count_terms::Newest;
use dir_bytes::{Memory, Seq};
use flag_rules::{Flags, RelayFacts, Ruling};
use key_port::Verifier;
use relay_entries::KeySet;
use std::alloc::Global;
use vote_pool::Pool;
use vote_terms::VoteFacts;
use vote_text::write_signed;

/// So many relays' entries are held at once.
const PART: usize = 64;

/// Room for the text of an entry, more than most take.
const ENTRY_ROOM: usize = 1024;

/// What stands behind the entries in the text that is signed.
pub(crate) fn back() -> &'static [u8]
    ensures { result.now ≡ walks.back_text }
{
    b"directory-footer\ndirectory-signature "
}

/// The text that is signed before its entries, with room for the entries of so many relays.
///
/// # Errors
/// `Memory` is want of memory.
pub(crate) fn front_of(
    alloc: Global,
    facts: &VoteFacts,
    certificate: &[u8],
    relays: usize,
) -> Result<Vec<u8>, Memory>
    requires { facts.now.entries ≡ [] }
    ensures { IfOk result (λ text. text.items ≡ walks.front_text facts.now certificate.now) }
{
    let mut text = write_signed(alloc, facts, certificate)?;
    text.truncate(text.len() - back().len());
    text.reserve_exact(relays.saturating_mul(ENTRY_ROOM))?;
    Ok(text)
}

/// Appends the text of the entries of which a vote speaks, which is taken out of its whole text, behind its front of this
/// length.
///
/// # Errors
/// `Memory` is want of memory.
fn push_part(
    out: &mut Vec<u8>,
    alloc: Global,
    facts: &VoteFacts,
    certificate: &[u8],
    front: usize,
) -> Result<(), Memory>
    requires { front ≡ length (walks.front_text facts.now certificate.now) }
    ensures { OnOk result (out.new.items ≡ out.old.items ++ walks.entries_text facts.now.entries) }
{
    let text = write_signed(alloc, facts, certificate)?;
    let end = text.len() - back().len();
    out.extend_from_slice(&text[front..end])?;
    Ok(())
}

/// Where a part ends that begins at a place, of so many relays.
fn part_end(place: usize, relays: usize) -> usize
    requires { place < relays }
    ensures after { place < result }
    ensures within { result ≤ relays }
{
    if relays - place <= PART {
        relays
    } else {
        place + PART
    }
}

/// Appends the text of the entries of a pool's relays, of which this is known and ruled, with these flags, by the newest method
/// that is known, to the front of the vote that says this around them. Flags stand for all of them, also for those that have no
/// entry.
///
/// # Errors
/// `Memory` is want of memory.
pub(crate) fn push_entries_of<V: Verifier>(
    out: &mut Vec<u8>,
    alloc: Global,
    newest: Newest,
    around: VoteFacts,
    certificate: &[u8],
    pool: &Pool<V>,
    known: &[RelayFacts],
    rulings: &[Ruling],
    flags: &[Flags],
) -> Result<(), Memory>
    requires many { walks.AreAsMany pool.now.descriptors known.now rulings.now flags.now }
    requires front { out.old.items ≡ walks.front_text around certificate.now }
    ensures { OnOk result (out.new.items ≡ out.old.items ++ walks.entries_text (listings.made_entries newest (listings.judged_relays pool.now.descriptors (ruled_relays known.now rulings.now) flags.now))) }
{
    let front = out.len();
    let mut facts = around;
    let mut keys = KeySet::new(alloc);
    let mut place = 0;
    'parts: while place < pool.len() {
        let end = part_end(place, pool.len());
        let entries = entries_between(
            &mut keys, alloc, newest, pool, known, rulings, flags, place, end,
        )?;
        facts.entries = Seq::new(entries);
        push_part(out, alloc, &facts, certificate, front)?;
        place = end;
    }
    Ok(())
}
