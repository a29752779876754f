// How a run ends.
ghost use Rattle.std.specs.Prelude.{◌≡◌};
ghost use Rattle.std.specs.Process as process;
ghost use Rattle.exit_status.specs.Lines.{number_of, refusal_number};

use crate::bandwidth_lines::bandwidth_number;
use crate::document_lines::fault_number;
use crate::report_lines::report_number;
use crate::station_lines::station_number;
use crate::vote_lines::votes_number;
use compute_command::VoteListRefusal;
use daemon_words::DocumentRefusal;
use report_command::NoReport;
use station_commands::{BandwidthRefusal, StationRefusal};
use std::process::ExitCode;

/// Why a command gives no text: a variant for each family of reasons, which stands in the crate of its command, and one for each
/// object outside that a command asks.
#[derive(Clone, Copy, Debug, PartialEq, Eq)]
pub enum Refusal {
    /// The input is no document of the kind that the command reads, or no list of them.
    Document(DocumentRefusal),
    /// The votes that the input is give no consensus.
    Votes(VoteListRefusal),
    /// The station can make no vote.
    Station(StationRefusal),
    /// The made vote is longer than a vote may be.
    MadeVote,
    /// The input gives no report.
    Report(NoReport),
    /// The first verifier failed, and it is not known whether what it was asked of holds.
    Verifier,
    /// The input gives no bandwidth file that counts.
    Bandwidth(BandwidthRefusal),
    /// The signer failed.
    Signer,
    /// A gate failed.
    Gate,
}

/// How a run ends.
#[derive(Clone, Copy, Debug, PartialEq, Eq)]
pub enum Status {
    /// The text was written whole.
    Done,
    /// There was no memory.
    Memory,
    /// The words give no command.
    BadWords,
    /// The input could not be read.
    ReadFault,
    /// The text could not be written whole.
    WriteFault,
    /// The input has more than 268,435,456 bytes.
    TooLong,
    /// The command refuses the input.
    Refused(Refusal),
}

impl Status {
    /// The number with which the process ends.
    pub fn number(self) -> u8
        ensures { result ≡ number_of self }
    {
        match self {
            Status::Done => 0,
            Status::Memory => 1,
            Status::BadWords => 2,
            Status::ReadFault => 3,
            Status::WriteFault => 4,
            Status::TooLong => 9,
            Status::Refused(refusal) => refusal.number(),
        }
    }

    /// What `main` returns, so that the process ends with the status's number.
    pub fn exit_code(self) -> ExitCode
        ensures { process.exit_status result ≡ number_of self }
    {
        ExitCode::from(self.number())
    }
}

impl Refusal {
    /// The number with which a process ends whose command refuses the input.
    fn number(self) -> u8
        ensures { result ≡ refusal_number self }
    {
        match self {
            Refusal::Document(refusal) => fault_number(refusal.fault.reason),
            Refusal::Votes(refusal) => votes_number(refusal),
            Refusal::Station(refusal) => station_number(refusal),
            Refusal::MadeVote => 9,
            Refusal::Report(refusal) => report_number(refusal),
            Refusal::Verifier => 8,
            Refusal::Bandwidth(refusal) => bandwidth_number(refusal),
            Refusal::Signer => 10,
            Refusal::Gate => 11,
        }
    }
}
