// The versions that most votes recommend.
ghost use Rattle.std.specs.Prelude.{◌≡◌, IfOk, map};
ghost use Rattle.compute_terms.specs.Lists as terms;
ghost use Rattle.consensus_calc.specs.ListLines as lines;
ghost use Rattle.vote_terms.specs.Votes.{ReadVote};

use dir_bytes::Memory;
use list_values::VersionList;
use std::alloc::Global;
use vote_doc::Accepted;
use vote_terms::VoteLists;

/// A line of versions, by those that they are recommended to.
#[derive(Clone, Copy, Debug)]
pub enum VersionsLine {
    ForClients,
    ForRelays,
}

/// The versions that more than half of the votes with a line have on it, ascending.
pub fn listed_versions(
    alloc: Global,
    votes: &Accepted,
    line: VersionsLine,
) -> Result<VersionList, Memory>
    ensures { IfOk result (λ listed. listed ≡ terms.listed_versions (lines.versions_on line) votes.now.votes) }
{
    let lists = all_on(alloc, votes, line)?;
    field_votes::versions(alloc, &lists)
}

/// What each vote has on a line, where it has it.
fn all_on(
    alloc: Global,
    votes: &Accepted,
    line: VersionsLine,
) -> Result<Vec<Option<VersionList>>, Memory>
    ensures { IfOk result (λ lists. lists.items ≡ map (λ (vote : ReadVote). lines.versions_on line vote.says.lists) votes.now.votes) }
{
    let mut lists = Vec::with_capacity(alloc, votes.len())?;
    'votes: for i in 0..votes.len() {
        let list = versions_on(votes.vote(i).vote().lists(), line);
        lists.push(copy_of(alloc, list)?)?;
    }
    Ok(lists)
}

/// A line of versions of a vote's lists.
fn versions_on(lists: &VoteLists, line: VersionsLine) -> &Option<VersionList>
    ensures { result.now ≡ lines.versions_on line lists.now }
{
    match line {
        VersionsLine::ForClients => &lists.client_versions,
        VersionsLine::ForRelays => &lists.server_versions,
    }
}

/// The same versions again, where there are some.
fn copy_of(alloc: Global, list: &Option<VersionList>) -> Result<Option<VersionList>, Memory>
    ensures { IfOk result (λ copy. copy ≡ list.now) }
{
    match list {
        Some(list) => Ok(Some(list.copy(alloc)?)),
        None => Ok(None),
    }
}
