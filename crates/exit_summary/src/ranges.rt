// The ranges of the ports that a policy accepts, and of those that it rejects.
ghost use Rattle.std.specs.Prelude.{◌≡◌, ◌+◌, ◌≤◌, IfOk, OnOk, reverse};
ghost use Rattle.exit_summary.specs.Policies as policies;
ghost use Rattle.exit_summary.specs.PortRanges as port_ranges;
ghost use Rattle.exit_summary.specs.Summaries as summaries;

use crate::nets::counts_of;
use crate::walk::stretch_to;
use dir_bytes::Memory;
use dir_values::{PolicyItem, PortRange};
use std::alloc::Global;

/// The ranges of the ports that are accepted, and of those that are rejected, both ascending.
#[derive(Drop)]
pub(crate) struct Sides {
    pub(crate) accepted: Vec<PortRange>,
    pub(crate) rejected: Vec<PortRange>,
}

/// Adds ports that stand before ranges, which stand in descending order.
///
/// # Errors
/// `Memory` is want of memory.
fn add_ports(ranges: &mut Vec<PortRange>, low: u16, high: u16) -> Result<(), Memory>
    ensures { OnOk result (reverse ranges.new.items ≡ port_ranges.with_ports low high (reverse ranges.old.items)) }
{
    let mut high = high;
    if let Some(first) = ranges.pop() {
        if high as u32 + 1 == first.low as u32 {
            high = first.high;
        } else {
            ranges.push(first)?;
        }
    }
    ranges.push(PortRange { low, high })?;
    Ok(())
}

/// The ranges of a policy: from the last port down, one stretch of ports after the other.
///
/// # Errors
/// `Memory` is want of memory.
pub(crate) fn sides_of(alloc: Global, items: &[PolicyItem]) -> Result<Sides, Memory>
    requires { policies.AreNets items.now }
    ensures accepted { IfOk result (λ sides. sides.accepted.items ≡ summaries.accepted_ranges items.now) }
    ensures rejected { IfOk result (λ sides. sides.rejected.items ≡ summaries.rejected_ranges items.now) }
{
    let counts = counts_of(alloc, items)?;
    let mut accepted = Vec::new(alloc);
    let mut rejected = Vec::new(alloc);
    let mut port = 65535u16;
    'stretches: while port >= 1 {
        let stretch = stretch_to(items, &counts, port);
        if stretch.accepted {
            add_ports(&mut accepted, stretch.first, port)?;
        } else {
            add_ports(&mut rejected, stretch.first, port)?;
        }
        port = stretch.first - 1;
    }
    accepted.reverse();
    rejected.reverse();
    Ok(Sides { accepted, rejected })
}
