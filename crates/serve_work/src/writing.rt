// The report on a period, written.
ghost use Rattle.std.specs.Prelude.{◌≡◌, ◌++◌, IfOk, OnOk};
ghost use Rattle.serve_work.specs.Reports as reports;

use crate::digest::{push, push_authority, push_digests};
use crate::kind::kind_word;
use dir_bytes::{Memory, push_decimal};
use key_port::Verifier;
use period_core::PeriodState;
use period_terms::Change;
use std::alloc::Global;

/// Appends the front of a change's line: its number and its kind.
fn push_front(out: &mut Vec<u8>, number: u64, change: &Change) -> Result<(), Memory>
    ensures { OnOk result (out.new.items ≡ out.old.items ++ reports.line_front number change.now.kind) }
{
    push(out, b"change ")?;
    push_decimal(out, number)?;
    push(out, b" ")?;
    push(out, kind_word(change.kind))?;
    push(out, b" ")
}

/// Appends the back of a change's line: its authority, its moment and its digests.
fn push_back(alloc: Global, out: &mut Vec<u8>, change: &Change) -> Result<(), Memory>
    ensures { OnOk result (out.new.items ≡ out.old.items ++ reports.line_back change.now) }
{
    push_authority(out, change.authority)?;
    push(out, b" ")?;
    push_decimal(out, change.published)?;
    push(out, b" ")?;
    push_digests(alloc, out, change.digest.as_bytes())?;
    push(out, b"\n")
}

/// Appends the line of a change.
fn push_change(alloc: Global, out: &mut Vec<u8>, number: u64, change: &Change) -> Result<(), Memory>
    ensures { OnOk result (out.new.items ≡ out.old.items ++ reports.change_line number change.now) }
{
    push_front(out, number, change)?;
    push_back(alloc, out, change)
}

/// Appends the lines of the changes up to a front.
fn push_changes(
    alloc: Global,
    out: &mut Vec<u8>,
    front: u64,
    changes: &[Change],
) -> Result<(), Memory>
    ensures { OnOk result (out.new.items ≡ out.old.items ++ reports.change_lines front changes.now) }
{
    let mut rest = changes;
    'changes: while let Some((change, later)) = rest.split_first() {
        let number = front.saturating_sub(later.len() as u64);
        push_change(alloc, out, number, change)?;
        rest = later;
    }
    Ok(())
}

/// Appends the line of a front.
fn push_total(out: &mut Vec<u8>, front: u64) -> Result<(), Memory>
    ensures { OnOk result (out.new.items ≡ out.old.items ++ reports.front_line front) }
{
    push(out, b"front ")?;
    push_decimal(out, front)?;
    push(out, b"\n")
}

/// The report on a state: how many changes were made, and a line for each since the period began.
///
/// # Errors
/// `Memory` is want of memory.
pub fn write<V: Verifier>(alloc: Global, state: &PeriodState<V>) -> Result<Vec<u8>, Memory>
    ensures { IfOk result (λ text. text.items ≡ reports.report_text state.now) }
{
    let mut out = Vec::new(alloc);
    push_total(&mut out, state.front())?;
    push_changes(alloc, &mut out, state.front(), state.changes())?;
    Ok(out)
}
