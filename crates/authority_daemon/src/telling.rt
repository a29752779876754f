// What each command that writes a text answers, with its refusals told as the program's.
ghost use Rattle.std.specs.Prelude.{◌≡◌, ◌<◌, ◌^◌, Err, IfErr, length};
ghost use Rattle.dir_bytes.specs.Causes.{Counts, Rose};
ghost use Rattle.key_port.specs.Answers.{rules};
ghost use Rattle.daemon_words.specs.Stops.{Answered, AnsweredAs};
ghost use Rattle.document_commands.specs.Answers.{CheckAnswers, ShowAnswers};
ghost use Rattle.report_command.specs.Answers.{ReportAnswers};
ghost use Rattle.exit_status.specs.Told.{by_report, by_subject};
ghost use Rattle.authority_daemon.specs.Commands.{IsBeforeSigner, IsEarly, IsOfStation, MakeVoteBy, may};
ghost use Rattle.authority_daemon.specs.Inside.{AsksNoKeys, OfRefusal};

use bytes::Bytes;
use count_terms::Newest;
use daemon_words::{Command, Measures, Report, Stop, Subject};
use dir_bytes::Clock;
use exit_status::{Refusal, by_file_vote, by_make_vote, by_report, by_subject};
use key_port::{Signer, Verifier};
use report_command::report;
use station_commands::{make_vote, make_vote_with_file};
use std::alloc::Global;

/// What `check` answers to an input.
pub(crate) fn check(
    alloc: Global,
    subject: Subject,
    bytes: &Bytes,
) -> Result<Vec<u8>, Stop<Refusal>>
    requires { length bytes.now < 2 ^ 61 }
    ensures answer { Answered (AnsweredAs by_subject (CheckAnswers subject bytes.now)) result }
    ensures keys { AsksNoKeys result }
{
    match document_commands::check(alloc, subject, bytes) {
        Ok(text) => Ok(text),
        Err(Stop::Refused(why)) => Err(Stop::Refused(by_subject(why))),
        Err(Stop::Memory) => Err(Stop::Memory),
    }
}

/// What `show` answers to an input.
pub(crate) fn show(alloc: Global, subject: Subject, bytes: &Bytes) -> Result<Vec<u8>, Stop<Refusal>>
    requires { length bytes.now < 2 ^ 61 }
    ensures answer { Answered (AnsweredAs by_subject (ShowAnswers subject bytes.now)) result }
    ensures keys { AsksNoKeys result }
{
    match document_commands::show(alloc, subject, bytes) {
        Ok(text) => Ok(text),
        Err(Stop::Refused(why)) => Err(Stop::Refused(by_subject(why))),
        Err(Stop::Memory) => Err(Stop::Memory),
    }
}

/// What `report` answers to an input.
pub(crate) fn health<V: Verifier>(
    alloc: Global,
    wanted: &Report,
    bytes: &Bytes,
    verifier: &mut V,
) -> Result<Vec<u8>, Stop<Refusal>>
    requires { length bytes.now < 2 ^ 61 }
    ensures answer { Answered (AnsweredAs by_report (ReportAnswers (rules V.may_accept V.may_refuse) wanted.now bytes.now)) result }
    ensures fault { result ≡ Err (Stop.Refused Refusal.Verifier) → Rose (V.faults verifier.old) (V.faults verifier.new) }
    ensures told { V.faults verifier.old < V.faults verifier.new → result ≡ Err (Stop.Refused Refusal.Verifier) }
    ensures signer { result ≡ Err (Stop.Refused Refusal.Signer) → ⊥ }
    ensures unasked { IfErr result (λ why. OfRefusal (IsEarly (Command.Report wanted.now)) why → verifier.new ≡ verifier.old) }
{
    match report(alloc, wanted, bytes, verifier) {
        Ok(text) => Ok(text),
        Err(Stop::Refused(why)) => Err(Stop::Refused(by_report(why))),
        Err(Stop::Memory) => Err(Stop::Memory),
    }
}

/// The vote that `make-vote` makes of an input, by where measured bandwidths come from, and by the newest method that is known.
pub(crate) fn vote<C: Clock, V: Verifier, N: Signer>(
    alloc: Global,
    bandwidths: Measures,
    newest: Newest,
    bytes: &Bytes,
    clock: &mut C,
    verifier: &mut V,
    signer: &mut N,
) -> Result<Vec<u8>, Stop<Refusal>>
    requires { length bytes.now < 2 ^ 61 }
    ensures answer { Answered (MakeVoteBy (may V.may_accept V.may_refuse N.may_give N.steps) bandwidths
        newest (C.last clock.new) bytes.now signer.old signer.new) result }
    ensures clock { Counts (C.asks clock.old) (C.asks clock.new) }
    ensures verifier_fault { result ≡ Err (Stop.Refused Refusal.Verifier) → Rose (V.faults verifier.old) (V.faults verifier.new) }
    ensures verifier_told { V.faults verifier.old < V.faults verifier.new → result ≡ Err (Stop.Refused Refusal.Verifier) }
    ensures signer_fault { result ≡ Err (Stop.Refused Refusal.Signer) → Rose (N.faults signer.old) (N.faults signer.new) }
    ensures signer_told { N.faults signer.old < N.faults signer.new → result ≡ Err (Stop.Refused Refusal.Signer) }
    ensures unasked { IfErr result (λ why. OfRefusal IsOfStation why → verifier.new ≡ verifier.old) }
    ensures unsigned { IfErr result (λ why. OfRefusal IsBeforeSigner why → signer.new ≡ signer.old) }
{
    match bandwidths {
        Measures::Station => match make_vote(alloc, newest, bytes, clock, verifier, signer) {
            Ok(text) => Ok(text),
            Err(Stop::Refused(why)) => Err(Stop::Refused(by_make_vote(why))),
            Err(Stop::Memory) => Err(Stop::Memory),
        },
        Measures::File => match make_vote_with_file(alloc, newest, bytes, clock, verifier, signer) {
            Ok(text) => Ok(text),
            Err(Stop::Refused(why)) => Err(Stop::Refused(by_file_vote(why))),
            Err(Stop::Memory) => Err(Stop::Memory),
        },
    }
}
