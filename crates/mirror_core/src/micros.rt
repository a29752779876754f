// Microdescriptors that are taken.
ghost use Rattle.std.specs.Prelude.{◌≡◌, ◌+◌, ◌<◌, ◌≤◌, ◌^◌, ◌-◌, length};
ghost use Rattle.mirror_core.specs.Answers as answers;
ghost use Rattle.mirror_core.specs.Tallies.{total};

use crate::report::MicroReport;
use crate::shelf::Shelf;
use crate::taken::Taken;
use bytes::Bytes;
use micro_desc::Micro;
use std::collections::VecDeque;

/// A report with one more.
fn counted(report: MicroReport, taken: Taken) -> MicroReport
    requires { total report < 2 ^ 32 - 1 }
    ensures { result ≡ answers.counted_report report taken }
{
    let MicroReport {
        kept,
        had,
        unwanted,
    } = report;
    match taken {
        Taken::Kept => MicroReport {
            kept: kept + 1,
            had,
            unwanted,
        },
        Taken::Had => MicroReport {
            kept,
            had: had + 1,
            unwanted,
        },
        Taken::Unwanted => MicroReport {
            kept,
            had,
            unwanted: unwanted + 1,
        },
    }
}

/// Takes microdescriptors, one after the other. Takes no memory.
pub(crate) fn take_each(shelf: &mut Shelf, micros: VecDeque<(Micro, Bytes)>) -> MicroReport
    requires { length micros.items < 2 ^ 32 - 1 }
    ensures report { result ≡ (answers.with_micros (answers.no_micros_yet shelf.old) micros.items).report }
    ensures rows { shelf.new ≡ (answers.with_micros (answers.no_micros_yet shelf.old) micros.items).rows }
{
    let mut left = micros;
    let mut report = MicroReport {
        kept: 0,
        had: 0,
        unwanted: 0,
    };
    'micros: while let Some((_, text)) = left.pop_front() {
        let taken = shelf.take(text);
        report = counted(report, taken);
    }
    report
}
