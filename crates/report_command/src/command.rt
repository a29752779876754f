// The command that writes a health report.
ghost use Rattle.std.specs.Prelude.{◌≡◌, ◌≤◌, ◌<◌, ◌^◌, Err, IfErr, length, vec_len};
ghost use Rattle.consensus_terms.specs.Moments.{HasMoments};
ghost use Rattle.dir_bytes.specs.Causes.{Rose};
ghost use Rattle.key_port.specs.Answers.{rules};
ghost use Rattle.daemon_words.specs.Stops.{Answered};
ghost use Rattle.report_command.specs.{Answers.{IsOfDocuments, ReportAnswers}, Private.{AnswersOf, AnswersWith}};

use crate::reading::{consensus_at, votes_of};
use crate::refusal::{MomentText, NoReport, ReportRefusal};
use crate::told::{of_accept, of_fault, of_input};
use bytes::Bytes;
use compute_command::accept;
use consensus_terms::SignedConsensus;
use count_terms::Newest;
use daemon_words::{Compute, Flavours, Report, Stop};
use frame_values::between;
use health_report::ReportFault;
use key_port::Verifier;
use std::alloc::Global;
use vote_doc::{Accepted, Vote};

/// The health report of the votes and the consensus that the input is, or why there is none.
///
/// # Errors
/// `Refused` by the first that applies: `Votes`, `Missing` or `Consensus`, the input's first fault, for which the verifier is not asked; `Vote`,
/// the first vote that is not acceptable, or `Verifier` where its count of faults rose; `Period`, `Flavour`; and `Verifier` again, of
/// the signatures of the consensus. `Memory` is want of memory.
pub fn report<V: Verifier>(
    alloc: Global,
    wanted: &Report,
    bytes: &Bytes,
    verifier: &mut V,
) -> Result<Vec<u8>, Stop<ReportRefusal>>
    requires { length bytes.now < 2 ^ 61 }
    ensures answer { Answered (ReportAnswers (rules V.may_accept V.may_refuse) wanted.now bytes.now) result }
    ensures fault { result ≡ Err (Stop.Refused ReportRefusal.Verifier) → Rose (V.faults verifier.old) (V.faults verifier.new) }
    ensures told { V.faults verifier.old < V.faults verifier.new → result ≡ Err (Stop.Refused ReportRefusal.Verifier) }
    ensures unasked { IfErr result (λ why. IsOfDocuments why → verifier.new ≡ verifier.old) }
{
    let (votes, at) = match votes_of(alloc, bytes) {
        Ok((votes, at)) => (votes, at),
        Err(why) => return Err(of_input(why)),
    };
    let rest = between(bytes, at, bytes.len() as u64);
    let consensus = match consensus_at(alloc, at, rest) {
        Ok(consensus) => consensus,
        Err(why) => return Err(of_fault(why)),
    };
    answer(alloc, wanted, votes, &consensus, rest, verifier)
}

/// The report of these votes and a consensus, which was read from these bytes, or why there is none.
fn answer<V: Verifier>(
    alloc: Global,
    wanted: &Report,
    votes: Vec<Vote>,
    consensus: &SignedConsensus,
    bytes: &[u8],
    verifier: &mut V,
) -> Result<Vec<u8>, Stop<ReportRefusal>>
    requires few { vec_len votes < 2 ^ 32 }
    requires moments { HasMoments consensus.now.facts }
    ensures answer { AnswersWith (rules V.may_accept V.may_refuse) wanted.now votes.items consensus.now bytes.now result }
    ensures fault { result ≡ Err (Stop.Refused ReportRefusal.Verifier) → Rose (V.faults verifier.old) (V.faults verifier.new) }
    ensures told { V.faults verifier.old < V.faults verifier.new → result ≡ Err (Stop.Refused ReportRefusal.Verifier) }
{
    let asked = Compute {
        roster: wanted.roster.copy(alloc)?,
        valid_after: wanted.valid_after,
        flavours: Flavours::Ns,
        newest: Newest::Method33,
    };
    match accept(alloc, &asked, votes, verifier) {
        Ok(accepted) => of_held(alloc, wanted, &accepted, consensus, bytes, verifier),
        Err(why) => Err(of_accept(why)),
    }
}

/// The report of held votes and a consensus, which was read from these bytes, or why there is none.
fn of_held<V: Verifier>(
    alloc: Global,
    wanted: &Report,
    votes: &Accepted,
    consensus: &SignedConsensus,
    bytes: &[u8],
    verifier: &mut V,
) -> Result<Vec<u8>, Stop<ReportRefusal>>
    requires moments { HasMoments consensus.now.facts }
    ensures answer { AnswersOf (rules V.may_accept V.may_refuse) wanted.now votes.now.votes consensus.now bytes.now result }
    ensures fault { result ≡ Err (Stop.Refused ReportRefusal.Verifier) → Rose (V.faults verifier.old) (V.faults verifier.new) }
    ensures told { V.faults verifier.old < V.faults verifier.new → result ≡ Err (Stop.Refused ReportRefusal.Verifier) }
{
    let begin = consensus.facts.valid_after;
    if begin != wanted.valid_after {
        let text = MomentText::of(alloc, begin)?;
        return Err(Stop::Refused(ReportRefusal::Report(NoReport::Period(text))));
    }
    match health_report::report(alloc, &wanted.roster, votes, consensus, bytes, verifier) {
        Ok(text) => Ok(text),
        Err(ReportFault::WrongFlavour) => {
            Err(Stop::Refused(ReportRefusal::Report(NoReport::Flavour)))
        }
        Err(ReportFault::VerifierFault) => Err(Stop::Refused(ReportRefusal::Verifier)),
        Err(ReportFault::Memory) => Err(Stop::Memory),
    }
}
