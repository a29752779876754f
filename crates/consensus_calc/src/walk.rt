// The walk over all relays.
ghost use Rattle.std.specs.{Prelude.{◌≡◌, ◌≤◌, ◌++◌, All, IfOk, IfSome, OnOk, map, OnErr}, Option.option_to_list};
ghost use Rattle.dir_bytes.specs.Causes.{last_moment};
ghost use Rattle.compute_terms.specs.{Flags.known_flags, Listings.{AreMembers, listings_at}};
ghost use Rattle.compute_terms.specs.RelayFlags as flags;
ghost use Rattle.compute_terms.specs.Routers as terms;
ghost use Rattle.consensus_calc.specs.Places.{with_place};

use crate::bandwidth::cap_of;
use crate::known::known_by;
use crate::relay::routerline;
use crate::setting::{adjusted, count_knowing, count_setting, is_listed, set_flags};
use compute_terms::{Belong, EdPart};
use consensus_terms::Routerline;
use dir_bytes::{Memory, Seq};
use dir_values::{Fingerprint, FlagSet};
use relay_entries::EdOpinion;
use relay_select::{Desk, Merge, belongs, eds_at, entries_at, entry_at, included_part};
use std::alloc::Global;
use vote_doc::{Accepted, Entry};

/// The relays that the consensus of these votes lists, ascending by identity, where the roster has so many authorities. An
/// unmeasured bandwidth is at most `limit`, if there is one, where enough votes measure.
///
/// # Errors
/// `Memory` is want of memory.
pub fn routers(
    alloc: Global,
    roster: u32,
    method: u32,
    limit: Option<u32>,
    known: &FlagSet,
    votes: &Accepted,
) -> Result<Seq<Routerline>, Memory>
    requires { known.now ≡ known_flags method votes.now.votes }
    ensures value { IfOk result (λ lines. lines ≡ terms.routers roster method limit votes.now.votes) }
    ensures moments { IfOk result (λ lines. All (λ line. line.published ≤ last_moment) lines) }
{
    let table = known_by(alloc, known, votes)?;
    let needed = count_knowing(alloc, known, &table, votes)?;
    let most = cap_of(limit, votes);
    let mut desk = Room::new(alloc);
    let mut group = Vec::with_capacity(alloc, votes.len())?;
    let mut walk = Merge::new(alloc, votes)?;
    let mut lines = Vec::new(alloc);
    'relays: while let Some(identity) = walk.next(&mut group) {
        let line = router(
            alloc, roster, method, most, votes, known, &table, &needed, identity, &group, &mut desk,
        )?;
        push_if(&mut lines, line)?;
    }
    Ok(Seq::new(lines))
}

/// Adds a line, where there is one.
fn push_if(lines: &mut Vec<Routerline>, line: Option<Routerline>) -> Result<(), Memory>
    ensures ok { OnOk result (lines.new.items ≡ lines.old.items ++ option_to_list line) }
    ensures err { OnErr result (lines.new.items ≡ lines.old.items) }
{
    if let Some(line) = line {
        lines.push(line)?;
    }
    Ok(())
}

/// Room for what the votes say of one relay, which is used again for the next.
#[derive(Drop)]
struct Room<'a> {
    eds: Vec<EdOpinion>,
    members: Vec<Belong>,
    marks: Vec<bool>,
    counts: Vec<u64>,
    entries: Vec<Entry<'a>>,
    choosing: Desk<'a>,
    values: Vec<u32>,
}

impl<'a> Room<'a> {
    /// Room for nothing yet.
    fn new(alloc: Global) -> Room<'a> {
        Room {
            eds: Vec::new(alloc),
            members: Vec::new(alloc),
            marks: Vec::new(alloc),
            counts: Vec::new(alloc),
            entries: Vec::new(alloc),
            choosing: Desk::new(alloc),
            values: Vec::new(alloc),
        }
    }
}

/// The line of a relay whose entries stand at these places, if it is listed.
fn router<'a>(
    alloc: Global,
    roster: u32,
    method: u32,
    most: Option<u32>,
    votes: &'a Accepted,
    known: &FlagSet,
    table: &[Seq<bool>],
    needed: &[u64],
    identity: Fingerprint,
    group: &[Belong],
    desk: &mut Room<'a>,
) -> Result<Option<Routerline>, Memory>
    requires known { known.now ≡ known_flags method votes.now.votes }
    requires table { table.now ≡ map (λ vote. map (λ flag. flags.knows flag vote) known.now) votes.now.votes }
    requires needed { needed.now ≡ map (flags.knowing_count votes.now.votes) known.now }
    requires members { AreMembers votes.now.votes group.now }
    ensures value { IfOk result (λ line. line ≡ terms.router_from roster method most votes.now.votes identity (listings_at votes.now.votes group.now)) }
    ensures moment { IfOk result (λ line. IfSome line (λ said. said.published ≤ last_moment)) }
{
    eds_at(votes, group, &mut desk.eds)?;
    let Some(part) = included_part(roster, &desk.eds) else {
        return Ok(None);
    };
    keep_belonging(votes, &part, group, &mut desk.members)?;
    let set = flags_of(
        alloc,
        method,
        &part,
        votes,
        known,
        table,
        needed,
        &desk.members,
        &mut desk.marks,
        &mut desk.counts,
    )?;
    if !is_listed(&set) {
        return Ok(None);
    }
    entries_at(votes, &desk.members, &mut desk.entries)?;
    let line = routerline(
        alloc,
        method,
        most,
        identity,
        set,
        &desk.entries,
        &mut desk.choosing,
        &mut desk.values,
    )?;
    Ok(line)
}

/// The flags by this method of an identity with this part, to which these places belong.
fn flags_of(
    alloc: Global,
    method: u32,
    part: &EdPart,
    votes: &Accepted,
    known: &FlagSet,
    table: &[Seq<bool>],
    needed: &[u64],
    members: &[Belong],
    marks: &mut Vec<bool>,
    counts: &mut Vec<u64>,
) -> Result<FlagSet, Memory>
    requires known { known.now ≡ known_flags method votes.now.votes }
    requires table { table.now ≡ map (λ vote. map (λ flag. flags.knows flag vote) known.now) votes.now.votes }
    requires needed { needed.now ≡ map (flags.knowing_count votes.now.votes) known.now }
    requires members { AreMembers votes.now.votes members.now }
    ensures { IfOk result (λ set. set ≡ flags.router_flags method votes.now.votes part.now (listings_at votes.now.votes members.now)) }
{
    count_setting(known, table, votes, members, marks, counts)?;
    let set = set_flags(alloc, part, known, counts, needed)?;
    let after = adjusted(alloc, method, known, set)?;
    Ok(after)
}

/// Replaces what is in `members` by those of these places whose entries belong to an identity with this part.
fn keep_belonging(
    votes: &Accepted,
    part: &EdPart,
    group: &[Belong],
    members: &mut Vec<Belong>,
) -> Result<(), Memory>
    requires { AreMembers votes.now.votes group.now }
    ensures listings { OnOk result (listings_at votes.now.votes members.new.items ≡ terms.belonging_listings part.now (listings_at votes.now.votes group.now)) }
    ensures members { OnOk result (AreMembers votes.now.votes members.new.items) }
{
    members.clear();
    'group: for at in group {
        let ed = entry_at(votes, at).ed();
        push_place(members, *at, belongs(part, &ed))?;
    }
    Ok(())
}

/// Adds a place, if it is wanted.
fn push_place(members: &mut Vec<Belong>, at: Belong, wanted: bool) -> Result<(), Memory>
    ensures ok { OnOk result (members.new.items ≡ with_place members.old.items at wanted) }
    ensures err { OnErr result (members.new.items ≡ members.old.items) }
{
    if wanted {
        members.push(at)?;
    }
    Ok(())
}
