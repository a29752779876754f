// The bandwidth of a relay.
ghost use Rattle.std.specs.{Prelude.{◌≡◌, ◌≤◌, ◌++◌, IfOk, OnOk, count_by, length, OnErr}, Option.option_to_list};
ghost use Rattle.compute_terms.specs.Bandwidths as terms;

use crate::median::low_median;
use consensus_terms::Bandwidth;
use dir_bytes::Memory;
use vote_doc::{Accepted, Entry, Vote};

/// The bandwidth of a relay with these entries; one that is not measured is at most `most`, where that is given.
pub fn relay_bandwidth(
    most: Option<u32>,
    entries: &[Entry<'_>],
    values: &mut Vec<u32>,
) -> Result<Option<Bandwidth>, Memory>
    ensures { IfOk result (λ bandwidth. bandwidth ≡ terms.relay_bandwidth most entries.now) }
{
    measured(entries, values)?;
    if values.len() >= 3 {
        return Ok(Some(Bandwidth {
            value: low_median(values),
            unmeasured: false,
        }));
    }
    bandwidths(entries, values)?;
    Ok(unmeasured(most, values))
}

/// The bandwidth of a relay that is not measured.
fn unmeasured(most: Option<u32>, values: &[u32]) -> Option<Bandwidth>
    ensures { result ≡ terms.unmeasured_bandwidth most values.now }
{
    if values.is_empty() {
        return None;
    }
    Some(Bandwidth {
        value: capped(most, low_median(values)),
        unmeasured: true,
    })
}

fn capped(most: Option<u32>, value: u32) -> u32
    ensures { result ≡ terms.capped_value most value }
{
    match most {
        None => value,
        Some(most) => value.min(most),
    }
}

/// Replaces what is in `values` by what these entries measured.
fn measured(entries: &[Entry<'_>], values: &mut Vec<u32>) -> Result<(), Memory>
    ensures { OnOk result (values.new.items ≡ terms.measured_values entries.now) }
{
    values.clear();
    'entries: for entry in entries {
        push_if(values, entry.measured())?;
    }
    Ok(())
}

/// Replaces what is in `values` by the bandwidths of these entries.
fn bandwidths(entries: &[Entry<'_>], values: &mut Vec<u32>) -> Result<(), Memory>
    ensures { OnOk result (values.new.items ≡ terms.bandwidth_values entries.now) }
{
    values.clear();
    'entries: for entry in entries {
        push_if(values, entry.bandwidth())?;
    }
    Ok(())
}

/// Adds a value, where there is one.
fn push_if(values: &mut Vec<u32>, value: Option<u32>) -> Result<(), Memory>
    ensures ok { OnOk result (values.new.items ≡ values.old.items ++ option_to_list value) }
    ensures err { OnErr result (values.new.items ≡ values.old.items) }
{
    if let Some(value) = value {
        values.push(value)?;
    }
    Ok(())
}

/// What a bandwidth that is not measured may be at most: the limit, if there is one, where three votes measure.
pub fn cap_of(limit: Option<u32>, votes: &Accepted) -> Option<u32>
    ensures { result ≡ terms.cap_of limit votes.now.votes }
{
    if measuring(votes) >= 3 { limit } else { None }
}

/// How many votes measure.
fn measuring(votes: &Accepted) -> usize
    ensures count { result ≡ count_by terms.measures votes.now.votes }
    ensures within { result ≤ length votes.now.votes }
{
    let mut count = 0;
    'votes: for i in 0..votes.len() {
        if measures(votes.vote(i).vote()) {
            count += 1;
        }
    }
    count
}

/// Whether a vote measures some relay.
fn measures(vote: &Vote) -> bool
    ensures { result ≡ terms.measures vote.now }
{
    'entries: for i in 0..vote.len() {
        if vote.entry(i).measured().is_some() {
            return true;
        }
    }
    false
}
