// A line of several parts on a sink. It takes no memory.
ghost use Rattle.std.specs.{Prelude.{◌≡◌, ◌≤◌, []}, List.flat_map};
ghost use Rattle.exit_status.specs.{Parts.{at_place, joined_parts}, Reports.Reports};

use dir_bytes::{Sink, WriteAll, write_all};

/// Writes what is wrong at a place, with a keyword where one belongs to it.
pub fn report_at<E: Sink>(errors: &mut E, place: u64, what: &[u8], keyword: &[u8])
    ensures { Reports (E.written errors.old) (E.written errors.new) (E.faults errors.old) (E.faults errors.new)
        (joined_parts (at_place place what.now keyword.now)) }
{
    let mut at = itoa::Buffer::new();
    let at = at.format(place);
    write_parts(
        errors,
        &[
            b"document fault at ",
            at.as_bytes(),
            b": ",
            what,
            keyword,
            b"\n",
        ],
    )
}

/// Writes the parts one after the other, until a write fails.
pub fn write_parts<E: Sink>(errors: &mut E, parts: &[&[u8]])
    ensures { Reports (E.written errors.old) (E.written errors.new) (E.faults errors.old) (E.faults errors.new)
        (flat_map (λ part. part.now) parts.now) }
{
    for part in parts {
        match write_all(errors, part) {
            WriteAll::Done => (),
            WriteAll::Failed { .. } => return,
        }
    }
}
