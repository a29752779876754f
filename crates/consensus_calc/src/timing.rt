// The times of a consensus.
ghost use Rattle.std.specs.Prelude.{◌≡◌, ◌≤◌, IfOk, All, map};
ghost use Rattle.compute_terms.specs.Times.{median_of};
ghost use Rattle.count_terms.specs.Counts as counts;
ghost use Rattle.consensus_calc.specs.Timings as timings;

use dir_bytes::Memory;
use field_votes::low_median_u64;
use std::alloc::Global;
use vote_doc::{Accepted, Vote};

/// What votes say of time: three moments, in seconds since 1970-01-01 00:00:00 UTC, and two numbers of seconds.
#[derive(Clone, Copy, Debug)]
pub enum Timing {
    ValidAfter,
    FreshUntil,
    ValidUntil,
    VoteSeconds,
    DistSeconds,
}

/// What a vote says.
fn said(vote: &Vote, timing: Timing) -> u64
    ensures value { result ≡ timings.said_timing timing vote.now }
    ensures within { result ≤ timings.most timing }
{
    match timing {
        Timing::ValidAfter => vote.valid_after(),
        Timing::FreshUntil => vote.fresh_until(),
        Timing::ValidUntil => vote.valid_until(),
        Timing::VoteSeconds => vote.vote_seconds() as u64,
        Timing::DistSeconds => vote.dist_seconds() as u64,
    }
}

/// What the votes say, in their order.
fn all_said(alloc: Global, votes: &Accepted, timing: Timing) -> Result<Vec<u64>, Memory>
    ensures values { IfOk result (λ values. values.items ≡ map (timings.said_timing timing) votes.now.votes) }
    ensures within { IfOk result (λ values. All (λ value. value ≤ timings.most timing) values.items) }
{
    let count = votes.len();
    let mut values = Vec::with_capacity(alloc, count)?;
    'votes: for i in 0..count {
        values.push(said(votes.vote(i).vote(), timing))?;
    }
    Ok(values)
}

/// The low median of what the votes say.
pub fn median(alloc: Global, votes: &Accepted, timing: Timing) -> Result<u64, Memory>
    ensures value { IfOk result (λ value. value ≡ median_of (timings.said_timing timing) votes.now.votes) }
    ensures within { IfOk result (λ value. value ≤ timings.most timing) }
{
    let mut values = all_said(alloc, votes, timing)?;
    Ok(low_median(&mut values))
}

/// The low median of some values, and 0 of none. It leaves them in ascending order.
fn low_median(values: &mut Vec<u64>) -> u64
    ensures { result ≡ counts.low_median values.old.items }
{
    if values.is_empty() {
        return 0;
    }
    values.sort_unstable();
    low_median_u64(values)
}
