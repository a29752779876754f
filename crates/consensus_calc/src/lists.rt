// The lists of a consensus.
ghost use Rattle.std.specs.Prelude.{◌≡◌, [], IfOk, unwrap_or};
ghost use Rattle.compute_terms.specs.Lists as terms;
ghost use Rattle.vote_terms.specs.declared.lists.VoteLists.{VoteLists};

use crate::protocol_lists::{ProtocolsLine, listed_protocols};
use crate::version_lists::{VersionsLine, listed_versions};
use consensus_terms::{ConsensusLists, is_34_or_later};
use dir_bytes::Memory;
use list_values::Params;
use std::alloc::Global;
use vote_doc::Accepted;

/// The versions, protocols and params of the consensus of votes by this method, where the roster has so many authorities.
pub fn lists_of(
    alloc: Global,
    method: u32,
    roster: u32,
    votes: &Accepted,
) -> Result<ConsensusLists, Memory>
    ensures { IfOk result (λ lists. lists ≡ terms.lists_of method roster votes.now.votes) }
{
    use ProtocolsLine::*;
    let recommending = needed_votes(method, half_of(roster), votes);
    let requiring = needed_votes(method, two_thirds_of(roster), votes);
    Ok(ConsensusLists {
        client_versions: listed_versions(alloc, votes, VersionsLine::ForClients)?,
        server_versions: listed_versions(alloc, votes, VersionsLine::ForRelays)?,
        recommended_client_protocols: listed_protocols(
            alloc,
            recommending,
            votes,
            RecommendedForClients,
        )?,
        recommended_relay_protocols: listed_protocols(
            alloc,
            recommending,
            votes,
            RecommendedForRelays,
        )?,
        required_client_protocols: listed_protocols(alloc, requiring, votes, RequiredOfClients)?,
        required_relay_protocols: listed_protocols(alloc, requiring, votes, RequiredOfRelays)?,
        params: listed_params(alloc, roster, votes)?,
    })
}

/// Half of a roster, rounded up.
fn half_of(roster: u32) -> u64
    ensures { result ≡ terms.half_of roster }
{
    (roster as u64 + 1) / 2
}

/// Two thirds of a roster, rounded up.
fn two_thirds_of(roster: u32) -> u64
    ensures { result ≡ terms.two_thirds_of roster }
{
    (2 * roster as u64 + 2) / 3
}

/// How many of these votes must at least have a number on a line of protocols, by this method and with this share of the roster.
fn needed_votes(method: u32, share: u64, votes: &Accepted) -> u64
    ensures { result ≡ terms.needed_votes method share votes.now.votes }
{
    if is_34_or_later(method) {
        share
    } else {
        votes.len() as u64 / 2 + 1
    }
}

/// The params that enough votes have.
fn listed_params(alloc: Global, roster: u32, votes: &Accepted) -> Result<Params, Memory>
    ensures { IfOk result (λ listed. listed ≡ terms.listed_params roster votes.now.votes) }
{
    let lists = all_params(alloc, votes)?;
    field_votes::params(alloc, roster, &lists)
}

/// The params of each vote, none where it has no such line.
fn all_params(alloc: Global, votes: &Accepted) -> Result<Vec<Params>, Memory>
    ensures { IfOk result (λ lists. lists.items ≡ terms.members_of (λ (lists : VoteLists). lists.params) votes.now.votes) }
{
    let mut lists = Vec::with_capacity(alloc, votes.len())?;
    'votes: for i in 0..votes.len() {
        let params = &votes.vote(i).vote().lists().params;
        lists.push(copy_or_none(alloc, params)?)?;
    }
    Ok(lists)
}

/// The same params again, and none where there are none.
fn copy_or_none(alloc: Global, params: &Option<Params>) -> Result<Params, Memory>
    ensures { IfOk result (λ copy. copy ≡ unwrap_or params.now []) }
{
    match params {
        Some(params) => params.copy(alloc),
        None => Ok(Params::new(Vec::new(alloc))),
    }
}
