// Why an input gives no report.
ghost use Rattle.std.specs.Prelude.{◌≡◌, ◌≤◌, IfOk};
ghost use Rattle.dir_bytes.specs.{Causes.last_moment, FieldTexts.moment_text};

use dir_bytes::{Memory, push_time};
use frame_terms::FrameFault;
use std::alloc::Global;
use vote_doc::VoteWord;

/// A moment as it is written in a line: `YYYY-MM-DD HH:MM:SS`.
#[derive(Clone, Copy, Debug, PartialEq, Eq)]
pub struct MomentText {
    /// Its bytes.
    pub text: [u8; 19],
}

impl MomentText {
    /// The text of a moment, in seconds since 1970-01-01 00:00:00 UTC.
    pub fn of(alloc: Global, moment: u64) -> Result<MomentText, Memory>
        requires { moment ≤ last_moment }
        ensures { IfOk result (λ moment_is. moment_is.text ≡ moment_text moment) }
    {
        let mut written = Vec::with_capacity(alloc, 19)?;
        push_time(&mut written, moment)?;
        let mut text = [0; 19];
        text.copy_from_slice(&written);
        Ok(MomentText { text })
    }
}

/// Why an input gives no report, beside its documents.
#[derive(Clone, Copy, Debug, PartialEq, Eq)]
pub enum NoReport {
    /// The line in front of the consensus does not stand there; the input ends at this place.
    Missing { place: u64 },
    /// The consensus is of another period, which begins at this moment.
    Period(MomentText),
    /// The consensus is of another flavour.
    Flavour,
}

/// Why `report` gives no report.
#[derive(Clone, Copy, Debug, PartialEq, Eq)]
pub enum ReportRefusal {
    /// What stands in front of the line is no list of votes, with its first fault.
    Votes(FrameFault),
    /// What stands behind the line is no consensus, with its first fault.
    Consensus(FrameFault),
    /// The vote with this number, from 1, is the first that is not acceptable, for this reason.
    Vote { number: u64, word: VoteWord },
    /// The line is missing, or the consensus is another than the one that is wanted.
    Report(NoReport),
    /// The verifier failed, and it is not known whether what it was asked of holds.
    Verifier,
}

/// Why an input begins with no votes and the line behind them.
#[derive(Clone, Copy, Debug, PartialEq, Eq)]
pub(crate) enum InputRefusal {
    /// What stands there is no vote, with the first fault.
    Fault(FrameFault),
    /// The line does not come; the input ends at this place.
    Missing { place: u64 },
}
