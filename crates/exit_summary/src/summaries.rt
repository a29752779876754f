// The summary of a policy.
ghost use Rattle.std.specs.Prelude.{◌≡◌, ◌+◌, ◌≤◌, IfOk, length, take};
ghost use Rattle.dir_values.specs.Ports as ports;
ghost use Rattle.exit_summary.specs.Policies as policies;
ghost use Rattle.exit_summary.specs.Summaries as summaries;

use crate::ranges::sides_of;
use dir_bytes::Memory;
use dir_values::{PolicyItem, PortRange, PortSummary};
use std::alloc::Global;

/// The text of a summary has at most so many bytes.
const MOST_BYTES: usize = 1000;

/// So many of them are left of the word, `accept` or `reject`.
const MOST_BEHIND_WORD: usize = 994;

/// Which ports a policy accepts, in the shorter of the two lists that say so, the one of accepted ports where they are equally
/// long. Where the shorter one has more than 1,000 bytes, it is the list of accepted ports, cut after its last whole entry
/// within them. A port is accepted where the first item of every address that speaks of it accepts it, or there is none, and
/// the items before it that speak of it reject at most 2^25 addresses that are not private (dir-spec, the `p` line).
///
/// # Errors
/// `Memory` is want of memory.
pub fn summary(alloc: Global, items: &[PolicyItem]) -> Result<PortSummary, Memory>
    requires { policies.AreNets items.now }
    ensures { IfOk result (λ summary. summary ≡ summaries.summary_of items.now) }
{
    let sides = sides_of(alloc, items)?;
    if sides.accepted.is_empty() {
        return every_port(alloc, false);
    }
    if sides.rejected.is_empty() {
        return every_port(alloc, true);
    }
    shorter(
        alloc,
        PortSummary::new(true, sides.accepted),
        PortSummary::new(false, sides.rejected),
    )
}

/// Every port, accepted or rejected.
///
/// # Errors
/// `Memory` is want of memory.
fn every_port(alloc: Global, accept: bool) -> Result<PortSummary, Memory>
    ensures { IfOk result (λ summary. summary ≡ record { accept = accept; ranges = summaries.every_port }) }
{
    let mut ranges = Vec::new(alloc);
    ranges.push(PortRange {
        low: 1,
        high: 65535,
    })?;
    Ok(PortSummary::new(accept, ranges))
}

/// The one whose text is shorter, the first on a tie; the first entries of the first one, where both texts are too long.
///
/// # Errors
/// `Memory` is want of memory.
fn shorter(
    alloc: Global,
    accepting: PortSummary,
    rejecting: PortSummary,
) -> Result<PortSummary, Memory>
    ensures { IfOk result (λ summary. summary ≡ summaries.shorter accepting rejecting) }
{
    let accept_len = text_len(alloc, &accepting)?;
    let reject_len = text_len(alloc, &rejecting)?;
    if accept_len.min(reject_len) > MOST_BYTES {
        return cut(alloc, accepting);
    }
    if accept_len <= reject_len {
        Ok(accepting)
    } else {
        Ok(rejecting)
    }
}

/// How many bytes the text has.
///
/// # Errors
/// `Memory` is want of memory.
fn text_len(alloc: Global, summary: &PortSummary) -> Result<usize, Memory>
    ensures { IfOk result (λ len. len ≡ summaries.size_of summary.now) }
{
    let mut text = Vec::new(alloc);
    summary.push(&mut text)?;
    Ok(text.len())
}

/// The ports of its first ranges, as far as the text that accepts them has at most 1,000 bytes.
///
/// # Errors
/// `Memory` is want of memory.
fn cut(alloc: Global, summary: PortSummary) -> Result<PortSummary, Memory>
    ensures { IfOk result (λ cut. cut ≡ summaries.cut_summary summary.ranges) }
{
    let mut ranges = summary.into_ranges();
    let count = fitting(alloc, &ranges)?;
    ranges.truncate(count);
    Ok(PortSummary::new(true, ranges))
}

/// How many ranges, from the first on, have texts that fit behind the word into 1,000 bytes, each with the byte before it.
///
/// # Errors
/// `Memory` is want of memory.
fn fitting(alloc: Global, ranges: &[PortRange]) -> Result<usize, Memory>
    ensures count { IfOk result (λ count. take count ranges.now ≡ summaries.ranges_fitting summaries.most_behind_word ranges.now) }
    ensures within { IfOk result (λ count. count ≤ length ranges.now) }
{
    let mut text = Vec::new(alloc);
    let mut room = MOST_BEHIND_WORD;
    let mut count = 0usize;
    for range in ranges {
        text.clear();
        range.push(&mut text)?;
        if text.len() >= room {
            return Ok(count);
        }
        room -= 1 + text.len();
        count += 1;
    }
    Ok(count)
}
