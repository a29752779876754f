// Lists of ranges of ports.
ghost use Rattle.std.specs.Prelude.{◌≡◌, ◌+◌, ◌≤◌, ◌++◌, IsTrue, IfOk, IfSome, IsOk, OnOk, OnErr, length, take};
ghost use Rattle.std.specs.Prelude.{vec_len, vec_capacity, option_map};
ghost use Rattle.dir_values.specs.Lending as lending;
ghost use Rattle.dir_values.specs.Ports as ports;
ghost use Rattle.item_terms.specs.Bytes as bytes;

use crate::parts::{after, before, has};
use crate::port_range::{PortRange, push_range, range_of};
use dir_bytes::Memory;
use std::alloc::Global;

/// Whether one of some ranges has a port.
pub(crate) fn in_ranges(ranges: &[PortRange], port: u16) -> bool
    ensures { result ≡ ports.in_ranges ranges.now port }
{
    ranges
        .iter()
        .any(|range| range.low <= port && port <= range.high)
}

/// The range that a text spells, if it begins at a port or behind it.
fn range_from(next: u32, text: &[u8]) -> Option<PortRange>
    ensures { result ≡ lending.from_port next (ports.range_of text.now) }
{
    match range_of(text) {
        Some(range) if next <= range.low as u32 => Some(range),
        _ => None,
    }
}

/// The ranges that a text spells, with commas between them; None where a part of it spells none, or where they do not
/// ascend or are not apart.
///
/// # Errors
/// `Memory` is want of memory.
pub(crate) fn range_list(alloc: Global, text: &[u8]) -> Result<Option<Vec<PortRange>>, Memory>
    ensures value { IfOk result (λ found. option_map (λ ranges. ranges.items) found ≡ ports.range_list text.now) }
    ensures apart { IfOk result (λ found. IfSome found (λ ranges. IsTrue (ports.are_ranges ranges.items))) }
{
    let mut ranges = Vec::new(alloc);
    let mut next = 1u32;
    let mut left = text;
    'parts: loop {
        let Some(range) = range_from(next, before(left, b',')) else {
            return Ok(None);
        };
        ranges.push(range)?;
        if !has(left, b',') {
            return Ok(Some(ranges));
        }
        next = range.high as u32 + 2;
        left = after(left, b',');
    }
}

/// Appends a word and ranges: `accept` or `reject`, a space, and the ranges with commas between them. Without memory a part
/// of them may stand there.
///
/// # Errors
/// `Memory` is want of memory.
pub(crate) fn push_ranges(
    accept: bool,
    ranges: &[PortRange],
    out: &mut Vec<u8>,
) -> Result<(), Memory>
    ensures ok { OnOk result (out.new.items ≡ out.old.items ++ (ports.word_text accept ++ ports.entries_text bytes.space ranges.now)) }
    ensures err { OnErr result (take (vec_len out.old) out.new.items ≡ out.old.items) }
    ensures room { vec_len out.old + length (ports.word_text accept ++ ports.entries_text bytes.space ranges.now) ≤ vec_capacity out.old → IsOk result }
    ensures capacity { vec_capacity out.old ≤ vec_capacity out.new }
{
    out.extend_from_slice(if accept { b"accept" } else { b"reject" })?;
    let mut separator = b' ';
    for range in ranges {
        out.push(separator)?;
        push_range(out, *range)?;
        separator = b',';
    }
    Ok(())
}
