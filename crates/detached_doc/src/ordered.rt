// Signatures in the order in which they are written.
ghost use Rattle.std.specs.{Prelude.{◌≡◌, IfOk}, Ordering.is_lt};
ghost use Rattle.detached_doc.specs.Order as order;

use crate::detached::DetachedLine;
use dir_bytes::{Memory, Text};
use std::alloc::Global;
use std::cmp::Ordering;

/// A copy of the name of a flavour, where there is one.
fn copy_flavour(alloc: Global, flavour: &Option<Text>) -> Result<Option<Text>, Memory>
    ensures { IfOk result (λ copy. copy ≡ flavour.now) }
{
    match flavour {
        Some(name) => Ok(Some(Text::copy_of(alloc, name.as_bytes())?)),
        None => Ok(None),
    }
}

/// A copy of a signature.
fn copy_of(alloc: Global, line: &DetachedLine) -> Result<DetachedLine, Memory>
    ensures { IfOk result (λ copy. copy ≡ line.now) }
{
    Ok(DetachedLine {
        flavour: copy_flavour(alloc, &line.flavour)?,
        line: line.line.copy(alloc)?,
    })
}

/// Copies of signatures.
fn copies_of(alloc: Global, lines: &[DetachedLine]) -> Result<Vec<DetachedLine>, Memory>
    ensures { IfOk result (λ copies. copies.items ≡ lines.now) }
{
    let mut copies = Vec::with_capacity(alloc, lines.len())?;
    'lines: for line in lines {
        copies.push(copy_of(alloc, line)?)?;
    }
    Ok(copies)
}

/// How two signatures compare by their identities.
#[tactic(auto, using(consensus_text::proofs::Signatures::identities))]
fn compare(line: &DetachedLine, other: &DetachedLine) -> Ordering
    ensures { is_lt result ≡ order.stands_before line.now other.now }
{
    line.line
        .identity
        .0
        .as_slice()
        .cmp(other.line.identity.0.as_slice())
}

/// The signatures ascending by identity, those of one identity in their order.
///
/// # Errors
/// `Memory` is want of memory.
pub(crate) fn in_order(alloc: Global, lines: &[DetachedLine]) -> Result<Vec<DetachedLine>, Memory>
    ensures { IfOk result (λ ordered. ordered.items ≡ order.in_order lines.now) }
{
    let mut ordered = copies_of(alloc, lines)?;
    ordered.sort_by(
        |line: &DetachedLine, other: &DetachedLine| -> Ordering
            ensures { is_lt result ≡ order.stands_before line.now other.now }
        { compare(line, other) },
    )?;
    Ok(ordered)
}
