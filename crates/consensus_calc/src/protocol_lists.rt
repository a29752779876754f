// The protocols that enough votes list.
ghost use Rattle.std.specs.Prelude.{◌≡◌, [], IfOk, unwrap_or};
ghost use Rattle.compute_terms.specs.Lists as terms;
ghost use Rattle.consensus_calc.specs.ListLines as lines;

use dir_bytes::Memory;
use list_values::ProtoRanges;
use std::alloc::Global;
use vote_doc::Accepted;
use vote_terms::VoteLists;

/// A line of protocols, by what it says of them.
#[derive(Clone, Copy, Debug)]
pub enum ProtocolsLine {
    RecommendedForClients,
    RecommendedForRelays,
    RequiredOfClients,
    RequiredOfRelays,
}

/// The numbers of protocols that at least so many votes have on a line.
pub fn listed_protocols(
    alloc: Global,
    least: u64,
    votes: &Accepted,
    line: ProtocolsLine,
) -> Result<ProtoRanges, Memory>
    ensures { IfOk result (λ listed. listed ≡ terms.listed_protocols least (lines.protocols_on line) votes.now.votes) }
{
    let lists = all_on(alloc, votes, line)?;
    field_votes::protocols(alloc, least, &lists)
}

/// What each vote has on a line, nothing where it has not the line.
fn all_on(alloc: Global, votes: &Accepted, line: ProtocolsLine) -> Result<Vec<ProtoRanges>, Memory>
    ensures { IfOk result (λ lists. lists.items ≡ terms.members_of (lines.protocols_on line) votes.now.votes) }
{
    let mut lists = Vec::with_capacity(alloc, votes.len())?;
    'votes: for i in 0..votes.len() {
        let list = protocols_on(votes.vote(i).vote().lists(), line);
        lists.push(copy_or_none(alloc, list)?)?;
    }
    Ok(lists)
}

/// A line of protocols of a vote's lists.
fn protocols_on(lists: &VoteLists, line: ProtocolsLine) -> &Option<ProtoRanges>
    ensures { result.now ≡ lines.protocols_on line lists.now }
{
    match line {
        ProtocolsLine::RecommendedForClients => &lists.recommended_client_protocols,
        ProtocolsLine::RecommendedForRelays => &lists.recommended_relay_protocols,
        ProtocolsLine::RequiredOfClients => &lists.required_client_protocols,
        ProtocolsLine::RequiredOfRelays => &lists.required_relay_protocols,
    }
}

/// The same protocols again, and none where there are none.
fn copy_or_none(alloc: Global, list: &Option<ProtoRanges>) -> Result<ProtoRanges, Memory>
    ensures { IfOk result (λ copy. copy ≡ unwrap_or list.now []) }
{
    match list {
        Some(list) => list.copy(alloc),
        None => Ok(ProtoRanges::new(Vec::new(alloc))),
    }
}
