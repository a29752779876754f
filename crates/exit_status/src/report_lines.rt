// The line and the number of each reason why an input gives no report.
ghost use Rattle.std.specs.Prelude.{◌≡◌, ◌≤◌, []};
ghost use Rattle.exit_status.specs.{Parts.joined_parts, Reports.Reports};
ghost use Rattle.exit_status.specs.ReportLines as lines;

use crate::parts::{report_at, write_parts};
use dir_bytes::Sink;
use report_command::NoReport;

/// The number with which the process ends.
pub(crate) fn report_number(refusal: NoReport) -> u8
    ensures { result ≡ lines.report_number refusal }
{
    match refusal {
        NoReport::Missing { .. } => 5,
        NoReport::Period(_) => 16,
        NoReport::Flavour => 17,
    }
}

/// Writes why an input gives no report.
pub fn report_report<E: Sink>(errors: &mut E, refusal: NoReport)
    ensures { Reports (E.written errors.old) (E.written errors.new) (E.faults errors.old) (E.faults errors.new)
        (joined_parts (lines.report_parts refusal)) }
{
    match refusal {
        NoReport::Missing { place } => {
            report_at(errors, place, b"missing ", b"report-consensus")
        }
        NoReport::Period(valid_after) => write_parts(
            errors,
            &[b"consensus of another period: ", &valid_after.text, b"\n"],
        ),
        NoReport::Flavour => { write_parts(errors, &[b"consensus of another flavour", b"\n"]) }
    }
}
