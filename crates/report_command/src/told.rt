// How a refusal of a call is told as the command's.
ghost use Rattle.std.specs.Prelude.{◌≡◌};
ghost use Rattle.report_command.specs.Told as told;

use crate::refusal::{InputRefusal, NoReport, ReportRefusal};
use compute_command::AcceptRefusal;
use daemon_words::Stop;
use frame_terms::FrameFault;

/// That the input begins with no votes and the line behind them.
pub(crate) fn of_input(stop: Stop<InputRefusal>) -> Stop<ReportRefusal>
    ensures { result ≡ told.of_input stop }
{
    match stop {
        Stop::Refused(InputRefusal::Fault(fault)) => Stop::Refused(ReportRefusal::Votes(fault)),
        Stop::Refused(InputRefusal::Missing { place }) => {
            Stop::Refused(ReportRefusal::Report(NoReport::Missing { place }))
        }
        Stop::Memory => Stop::Memory,
    }
}

/// That it ends with no consensus.
pub(crate) fn of_fault(stop: Stop<FrameFault>) -> Stop<ReportRefusal>
    ensures { result ≡ told.of_fault stop }
{
    match stop {
        Stop::Refused(fault) => Stop::Refused(ReportRefusal::Consensus(fault)),
        Stop::Memory => Stop::Memory,
    }
}

/// That its votes are not held.
pub(crate) fn of_accept(stop: Stop<AcceptRefusal>) -> Stop<ReportRefusal>
    ensures { result ≡ told.of_accept stop }
{
    match stop {
        Stop::Refused(AcceptRefusal::Vote { number, word }) => {
            Stop::Refused(ReportRefusal::Vote { number, word })
        }
        Stop::Refused(AcceptRefusal::Verifier) => Stop::Refused(ReportRefusal::Verifier),
        Stop::Memory => Stop::Memory,
    }
}
