// The flags of a relay.
ghost use Rattle.std.specs.Prelude.{◌≡◌, ◌<◌, ◌^◌, IfOk, OnOk, length, map, filter};
ghost use Rattle.dir_values.specs.FlagSets.{as_set};
ghost use Rattle.compute_terms.specs.Listings.{AreMembers, listings_at};
ghost use Rattle.compute_terms.specs.RelayFlags as flags;
ghost use Rattle.consensus_calc.specs.Picking as picking;

use crate::counting::{add, zeros};
use crate::marks::mark;
use compute_terms::{Belong, EdPart};
use consensus_terms::is_34_or_later;
use dir_bytes::{Memory, Seq};
use dir_values::FlagSet;
use relay_select::entry_at;
use std::alloc::Global;
use vote_doc::Accepted;

/// Replaces what is in `counts` by how many of the votes that know a flag set it in one of these entries, for each flag.
pub fn count_setting(
    known: &FlagSet,
    table: &[Seq<bool>],
    votes: &Accepted,
    members: &[Belong],
    marks: &mut Vec<bool>,
    counts: &mut Vec<u64>,
) -> Result<(), Memory>
    requires table { table.now ≡ map (λ vote. map (λ flag. flags.knows flag vote) known.now) votes.now.votes }
    requires members { AreMembers votes.now.votes members.now }
    ensures { OnOk result (counts.new.items ≡ map (flags.setting_count (listings_at votes.now.votes members.now)) known.now) }
{
    zeros(known.len(), counts)?;
    'members: for at in members {
        mark(known, entry_at(votes, at).flags(), marks)?;
        let row = table[at.vote].as_slice();
        add(row, marks, counts);
    }
    Ok(())
}

/// How many votes know each of these flags.
pub fn count_knowing(
    alloc: Global,
    known: &FlagSet,
    table: &[Seq<bool>],
    votes: &Accepted,
) -> Result<Vec<u64>, Memory>
    requires { table.now ≡ map (λ vote. map (λ flag. flags.knows flag vote) known.now) votes.now.votes }
    ensures { IfOk result (λ counts. counts.items ≡ map (flags.knowing_count votes.now.votes) known.now) }
{
    let mut counts = Vec::new(alloc);
    zeros(known.len(), &mut counts)?;
    'votes: for i in 0..votes.len() {
        let row = table[i].as_slice();
        add(row, row, &mut counts);
    }
    Ok(counts)
}

/// Whether a flag is set.
fn is_set(part: &EdPart, flag: &[u8], count: u64, needed: u64) -> bool
    ensures { result ≡ picking.is_set_by part.now flag.now count needed }
{
    if flag == b"NoEdConsensus".as_slice() {
        is_bare(part)
    } else {
        count > needed / 2
    }
}

fn is_bare(part: &EdPart) -> bool
    ensures { result ≡ flags.is_bare part.now }
{
    match part {
        EdPart::Key(_) => false,
        EdPart::NoKey => false,
        EdPart::Bare => true,
    }
}

/// The set of the flags that are set, by how many votes set and know each.
pub fn set_flags(
    alloc: Global,
    part: &EdPart,
    known: &FlagSet,
    counts: &[u64],
    needed: &[u64],
) -> Result<FlagSet, Memory>
    requires counts { length counts.now ≡ length known.now }
    requires needed { length needed.now ≡ length known.now }
    ensures { IfOk result (λ set. set ≡ as_set (picking.picked_flags part.now known.now counts.now needed.now)) }
{
    let mut set = FlagSet::new(alloc);
    'flags: for i in 0..known.len() {
        let flag = known.flag(i);
        insert_if(
            alloc,
            &mut set,
            flag,
            is_set(part, flag, counts[i], needed[i]),
        )?;
    }
    Ok(set)
}

/// Puts a flag into a set, if it is wanted there.
fn insert_if(alloc: Global, set: &mut FlagSet, flag: &[u8], wanted: bool) -> Result<(), Memory>
    ensures { OnOk result (set.new ≡ picking.with_flag_if set.old flag.now wanted) }
{
    if wanted {
        set.insert(alloc, flag)?;
    }
    Ok(())
}

/// The flags as they stand in a consensus by this method that knows these: those of a relay that is to stand in the middle are
/// adjusted.
pub fn adjusted(
    alloc: Global,
    method: u32,
    known: &FlagSet,
    set: FlagSet,
) -> Result<FlagSet, Memory>
    ensures { IfOk result (λ after. after ≡ flags.adjusted_flags method known.now set) }
{
    if set.contains(b"MiddleOnly") {
        in_middle(alloc, method, known, &set)
    } else {
        Ok(set)
    }
}

/// The flags of a relay that is to stand in the middle.
fn in_middle(alloc: Global, method: u32, known: &FlagSet, set: &FlagSet) -> Result<FlagSet, Memory>
    ensures { IfOk result (λ after. after ≡ flags.flags_in_middle method known.now set.now) }
{
    let mut after = suiting(alloc, set)?;
    if is_34_or_later(method) && !known.contains(b"BadExit") {
        return Ok(after);
    }
    after.insert(alloc, b"BadExit")?;
    Ok(after)
}

/// Those of some flags that such a relay may have.
fn suiting(alloc: Global, set: &FlagSet) -> Result<FlagSet, Memory>
    ensures { IfOk result (λ after. after ≡ as_set (filter flags.suits_middle set.now)) }
{
    let mut after = FlagSet::new(alloc);
    'flags: for i in 0..set.len() {
        let flag = set.flag(i);
        insert_if(alloc, &mut after, flag, suits_middle(flag))?;
    }
    Ok(after)
}

fn suits_middle(flag: &[u8]) -> bool
    ensures { result ≡ flags.suits_middle flag.now }
{
    !(flag == b"Exit".as_slice()
        || flag == b"Guard".as_slice()
        || flag == b"HSDir".as_slice()
        || flag == b"V2Dir".as_slice())
}

/// Whether a relay with these flags is listed.
pub fn is_listed(set: &FlagSet) -> bool
    ensures { result ≡ flags.is_running_and_valid set.now }
{
    set.contains(b"Running") && set.contains(b"Valid")
}
