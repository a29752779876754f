// Ranges of ports.
ghost use Rattle.std.specs.Prelude.{◌≡◌, ◌+◌, ◌≤◌, ◌++◌, IsOk, OnOk, OnErr, length, take, vec_len, vec_capacity};
ghost use Rattle.dir_values.specs.Ports as ports;

use crate::number::port_of;
use crate::parts::{after, before, has};
use dir_bytes::{Memory, push_decimal};

/// The ports from a low to a high one. Its text is `low-high`, or the port where it is one.
#[derive(Clone, Copy, Debug, PartialEq, Eq)]
pub struct PortRange {
    pub low: u16,
    pub high: u16,
}

impl PortRange {
    /// Appends the text. Without memory `out` stays as it was.
    ///
    /// # Errors
    /// `Memory` is want of memory.
    pub fn push(&self, out: &mut Vec<u8>) -> Result<(), Memory>
        ensures ok { OnOk result (out.new.items ≡ out.old.items ++ ports.range_text self.now) }
        ensures err { OnErr result (out.new.items ≡ out.old.items) }
        ensures room { vec_len out.old + length (ports.range_text self.now) ≤ vec_capacity out.old → IsOk result }
        ensures capacity { vec_capacity out.old ≤ vec_capacity out.new }
    {
        let before = out.len();
        match push_range(out, *self) {
            Ok(()) => Ok(()),
            Err(refused) => {
                out.truncate(before);
                Err(refused)
            }
        }
    }
}

/// Appends a range. Without memory a part of it may stand there.
///
/// # Errors
/// `Memory` is want of memory.
#[tactic(auto, unfolding(crate::specs::Ports::range_text))]
pub(crate) fn push_range(out: &mut Vec<u8>, range: PortRange) -> Result<(), Memory>
    ensures ok { OnOk result (out.new.items ≡ out.old.items ++ ports.range_text range) }
    ensures err { OnErr result (take (vec_len out.old) out.new.items ≡ out.old.items) }
    ensures room { vec_len out.old + length (ports.range_text range) ≤ vec_capacity out.old → IsOk result }
    ensures capacity { vec_capacity out.old ≤ vec_capacity out.new }
{
    push_decimal(out, range.low as u64)?;
    if range.low != range.high {
        out.push(b'-')?;
        push_decimal(out, range.high as u64)?;
    }
    Ok(())
}

/// The port from 1 on that a text spells.
#[tactic(auto, unfolding(crate::specs::Ports::listed_port))]
fn listed_port(text: &[u8]) -> Option<u16>
    ensures { result ≡ ports.listed_port text.now }
{
    match port_of(text) {
        Some(port) if port != 0 => Some(port),
        _ => None,
    }
}

/// The range from a port to another one, which does not come before it.
fn range_between(low: Option<u16>, high: Option<u16>) -> Option<PortRange>
    ensures { result ≡ ports.range_between low high }
{
    match (low, high) {
        (Some(low), Some(high)) if low <= high => Some(PortRange { low, high }),
        _ => None,
    }
}

/// The range that `low-high` or one port spells.
#[tactic(auto, unfolding(crate::specs::Ports::range_of))]
pub(crate) fn range_of(text: &[u8]) -> Option<PortRange>
    ensures { result ≡ ports.range_of text.now }
{
    if has(text, b'-') {
        range_between(
            listed_port(before(text, b'-')),
            listed_port(after(text, b'-')),
        )
    } else {
        range_between(listed_port(text), listed_port(text))
    }
}
