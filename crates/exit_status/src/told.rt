// How each command's refusal is told as the program's: a function here for each command.
ghost use Rattle.std.specs.Prelude.{◌≡◌};
ghost use Rattle.exit_status.specs.Told as told;

use crate::status::Refusal;
use compute_command::{ComputeRefusal, VoteListRefusal};
use daemon_words::{DocumentRefusal, Kind};
use document_commands::SubjectRefusal;
use frame_terms::FrameFault;
use report_command::ReportRefusal;
use serve_command::ServeRefusal;
use station_commands::{BandwidthRefusal, FileVoteRefusal, MakeVoteRefusal};

/// That the input is no document of a kind, or no list of them.
fn document(kind: Kind, fault: FrameFault) -> Refusal
    ensures { result ≡ told.document kind fault }
{
    Refusal::Document(DocumentRefusal { kind, fault })
}

/// Why `check` or `show` gives no text.
pub fn by_subject(why: SubjectRefusal) -> Refusal
    ensures { result ≡ told.by_subject why }
{
    match why {
        SubjectRefusal::Document(why) => Refusal::Document(why),
        SubjectRefusal::File(fault) => Refusal::Bandwidth(BandwidthRefusal::Fault(fault)),
    }
}

/// Why `compute` gives no text.
pub fn by_compute(why: ComputeRefusal) -> Refusal
    ensures { result ≡ told.by_compute why }
{
    match why {
        ComputeRefusal::Fault(fault) => document(Kind::Vote, fault),
        ComputeRefusal::Votes(why) => Refusal::Votes(why),
        ComputeRefusal::Verifier => Refusal::Verifier,
    }
}

/// Why `make-vote` gives no vote.
pub fn by_make_vote(why: MakeVoteRefusal) -> Refusal
    ensures { result ≡ told.by_make_vote why }
{
    match why {
        MakeVoteRefusal::Station(why) => Refusal::Station(why),
        MakeVoteRefusal::MadeVote => Refusal::MadeVote,
        MakeVoteRefusal::Verifier => Refusal::Verifier,
        MakeVoteRefusal::Signer => Refusal::Signer,
    }
}

/// Why `make-vote --bandwidth` gives no vote.
pub fn by_file_vote(why: FileVoteRefusal) -> Refusal
    ensures { result ≡ told.by_file_vote why }
{
    match why {
        FileVoteRefusal::File(why) => Refusal::Bandwidth(why),
        FileVoteRefusal::Vote(why) => by_make_vote(why),
    }
}

/// Why `report` gives no report.
pub fn by_report(why: ReportRefusal) -> Refusal
    ensures { result ≡ told.by_report why }
{
    match why {
        ReportRefusal::Votes(fault) => document(Kind::Vote, fault),
        ReportRefusal::Consensus(fault) => document(Kind::Consensus, fault),
        ReportRefusal::Vote { number, word } => {
            Refusal::Votes(VoteListRefusal::Vote { number, word })
        }
        ReportRefusal::Report(why) => Refusal::Report(why),
        ReportRefusal::Verifier => Refusal::Verifier,
    }
}

/// Why `serve` starts no authority.
pub fn by_serve(why: ServeRefusal) -> Refusal
    ensures { result ≡ told.by_serve why }
{
    match why {
        ServeRefusal::File(why) => Refusal::Bandwidth(why),
        ServeRefusal::Station(why) => Refusal::Station(why),
        ServeRefusal::Verifier => Refusal::Verifier,
    }
}
