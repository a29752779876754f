// The line of a status on the errors sink. It takes no memory.
ghost use Rattle.std.specs.Prelude.{◌≡◌, ◌≤◌, []};
ghost use Rattle.exit_status.specs.{Lines.{line_of, refusal_parts}, Parts.joined_parts, Reports.Reports};

use crate::bandwidth_lines::report_bandwidth;
use crate::document_lines::{document_limit, report_fault};
use crate::parts::write_parts;
use crate::report_lines::report_report;
use crate::station_lines::report_station;
use crate::status::{Refusal, Status};
use crate::vote_lines::report_votes;
use dir_bytes::Sink;

/// Writes the line of a status, or a front of it where the sink fails.
pub fn report<E: Sink>(errors: &mut E, status: Status)
    ensures { Reports (E.written errors.old) (E.written errors.new) (E.faults errors.old) (E.faults errors.new)
        (line_of status) }
{
    match status {
        Status::Done => write_parts(errors, &[]),
        Status::Memory => write_parts(errors, &[b"want of memory", b"\n"]),
        Status::BadWords => write_parts(errors, &[b"bad words", b"\n"]),
        Status::ReadFault => write_parts(errors, &[b"read fault", b"\n"]),
        Status::WriteFault => write_parts(errors, &[b"write fault", b"\n"]),
        Status::TooLong => write_parts(errors, &[b"limit input 268435456", b"\n"]),
        Status::Refused(refusal) => report_refusal(errors, refusal),
    }
}

/// Writes the line of a refusal: a line here for each family of reasons.
fn report_refusal<E: Sink>(errors: &mut E, refusal: Refusal)
    ensures { Reports (E.written errors.old) (E.written errors.new) (E.faults errors.old) (E.faults errors.new)
        (joined_parts (refusal_parts refusal)) }
{
    match refusal {
        Refusal::Document(refusal) => report_fault(
            errors,
            document_limit(refusal.kind),
            refusal.fault.place,
            refusal.fault.reason,
        ),
        Refusal::Votes(refusal) => report_votes(errors, refusal),
        Refusal::Station(refusal) => report_station(errors, refusal),
        Refusal::MadeVote => write_parts(errors, &[b"limit vote 16777216", b"\n"]),
        Refusal::Report(refusal) => report_report(errors, refusal),
        Refusal::Verifier => write_parts(errors, &[b"verifier fault", b"\n"]),
        Refusal::Bandwidth(refusal) => report_bandwidth(errors, refusal),
        Refusal::Signer => write_parts(errors, &[b"signer fault", b"\n"]),
        Refusal::Gate => write_parts(errors, &[b"gate fault", b"\n"]),
    }
}
