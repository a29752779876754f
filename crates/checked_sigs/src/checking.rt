// Checking detached signatures.
ghost use Rattle.std.specs.Prelude.{◌≡◌, ◌≤◌, ◌<◌, ◌^◌, Err, IfOk, IfErr, IfSome, OnOk, Some, length, option_map};
ghost use Rattle.sha1.specs.Sha1.{sha1};
ghost use Rattle.dir_bytes.specs.Causes.{Rose};
ghost use Rattle.key_port.specs.Answers.{rules};
ghost use Rattle.period_terms.specs.{Advances.algorithm_of, Offered.offered_signature as offer_of};
ghost use Rattle.checked_sigs.specs.{Asking.offered_by, Checks.{AddsLine, ChecksAll, FailsLine, FailsLines, IsJudged}};
ghost use Rattle.checked_sigs.specs.Checks.{RefusedBy, TellsLines, tally_of};

use crate::over::{digest_over, flavour_of, key_of};
use crate::report::{SigRefusal, SigReport};
use consensus_terms::{Flavour, SignatureLine};
use detached_doc::{Detached, DetachedLine, read};
use dir_bytes::Seq;
use frame_terms::ReadRefusal;
use key_port::{KeyKind, Verifier, VerifyAnswer};
use period_terms::{CheckedSig, PeriodView};
use std::alloc::Global;

/// What a line is over, and by which key it is.
#[derive(Clone, Copy)]
pub(crate) struct Wanted<'a> {
    flavour: Flavour,
    digest: &'a [u8],
    key: &'a [u8],
}

/// What a line is over, and by which key, where its flavour, its digest and its key are known.
fn wanted_of<'a>(
    view: &'a PeriodView,
    detached: &'a Detached,
    line: &DetachedLine,
) -> Option<Wanted<'a>>
    ensures offered { option_map (λ wanted. offer_of detached.now.valid_after wanted.flavour wanted.digest.now wanted.key.now line.now.line) result ≡ offered_by view.now detached.now line.now }
    ensures short { IfSome result (λ wanted. length wanted.digest.now ≤ 52) }
    ensures algorithm { IfSome result (λ wanted. line.now.line.algorithm ≡ algorithm_of wanted.flavour) }
    ensures named { IfSome result (λ wanted. line.now.line.key_digest.0 ≡ sha1 wanted.key.now) }
{
    let Some(flavour) = flavour_of(line) else {
        return None;
    };
    let Some(digest) = digest_over(detached, flavour) else {
        return None;
    };
    match key_of(view.keys.as_slice(), &line.line) {
        Some(key) => Some(Wanted {
            flavour,
            digest,
            key: key.key.as_bytes(),
        }),
        None => None,
    }
}

/// The signature of an offered line, if the verifier accepts it.
///
/// # Errors
/// `VerifierFault` only where the verifier's count of faults rose, and wherever it is greater. `Memory` is want of memory.
fn ask<V: Verifier>(
    alloc: Global,
    valid_after: u64,
    wanted: &Wanted<'_>,
    line: &SignatureLine,
    verifier: &mut V,
) -> Result<Option<CheckedSig<V>>, SigRefusal>
    requires short { length wanted.now.digest.now ≤ 52 }
    requires algorithm { line.now.algorithm ≡ algorithm_of wanted.now.flavour }
    requires named { line.now.key_digest.0 ≡ sha1 wanted.now.key.now }
    ensures judged { IfOk result (λ checked. IsJudged (rules V.may_accept V.may_refuse) V.steps (offer_of valid_after wanted.now.flavour wanted.now.digest.now wanted.now.key.now line.now) checked verifier.old verifier.new) }
    ensures refused { IfErr result (λ refusal. FailsLine V.steps (Some (offer_of valid_after wanted.now.flavour wanted.now.digest.now wanted.now.key.now line.now)) refusal verifier.old verifier.new) }
    ensures fault { IfErr result (λ refusal. refusal ≡ SigRefusal.VerifierFault → Rose (V.faults verifier.old) (V.faults verifier.new)) }
    ensures faults { V.faults verifier.old ≤ V.faults verifier.new }
    ensures told { V.faults verifier.old < V.faults verifier.new → result ≡ Err SigRefusal.VerifierFault }
{
    let signature = line.signature.as_bytes();
    match verifier.verify(KeyKind::Signing, wanted.key, wanted.digest, signature) {
        VerifyAnswer::Yes => {
            match CheckedSig::of(
                alloc,
                valid_after,
                wanted.flavour,
                wanted.digest,
                wanted.key,
                line,
            ) {
                Ok(sig) => Ok(Some(sig)),
                Err(_) => Err(SigRefusal::Memory),
            }
        }
        VerifyAnswer::No => Ok(None),
        VerifyAnswer::Fault => Err(SigRefusal::VerifierFault),
    }
}

/// Tells of one line more. The verifier is asked of it where its flavour, its digest and its key are known.
///
/// # Errors
/// `VerifierFault` only where the verifier's count of faults rose, and wherever it is greater. `Memory` is want of memory.
fn tell_line<V: Verifier>(
    report: &mut SigReport<V>,
    alloc: Global,
    view: &PeriodView,
    detached: &Detached,
    line: &DetachedLine,
    verifier: &mut V,
) -> Result<(), SigRefusal>
    requires few_skipped { report.old.skipped < 4294967295 }
    requires few_bad { report.old.bad < 4294967295 }
    ensures adds { OnOk result (AddsLine (rules V.may_accept V.may_refuse) V.steps (offered_by view.now detached.now line.now) (tally_of report.old.checked report.old.skipped report.old.bad) verifier.old (tally_of report.new.checked report.new.skipped report.new.bad) verifier.new) }
    ensures refused { IfErr result (λ refusal. FailsLine V.steps (offered_by view.now detached.now line.now) refusal verifier.old verifier.new) }
    ensures fault { IfErr result (λ refusal. refusal ≡ SigRefusal.VerifierFault → Rose (V.faults verifier.old) (V.faults verifier.new)) }
    ensures faults { V.faults verifier.old ≤ V.faults verifier.new }
    ensures told { V.faults verifier.old < V.faults verifier.new → result ≡ Err SigRefusal.VerifierFault }
{
    let Some(wanted) = wanted_of(view, detached, line) else {
        report.skipped += 1;
        return Ok(());
    };
    match ask(alloc, detached.valid_after, &wanted, &line.line, verifier) {
        Ok(Some(sig)) => match report.checked.push(sig) {
            Ok(()) => Ok(()),
            Err(_) => Err(SigRefusal::Memory),
        },
        Ok(None) => {
            report.bad += 1;
            Ok(())
        }
        Err(refusal) => Err(refusal),
    }
}

/// What comes of each line, in their order. More than 4,294,967,295 lines, which no document has, are told as want of memory.
///
/// # Errors
/// `VerifierFault` only where the verifier's count of faults rose, and wherever it is greater. `Memory` is want of memory.
fn check_lines<V: Verifier>(
    alloc: Global,
    view: &PeriodView,
    detached: &Detached,
    verifier: &mut V,
) -> Result<SigReport<V>, SigRefusal>
    ensures checked { IfOk result (λ report. TellsLines (rules V.may_accept V.may_refuse) V.steps view.now detached.now detached.now.signatures (tally_of report.checked report.skipped report.bad) verifier.old verifier.new) }
    ensures refused { IfErr result (λ refusal. FailsLines V.steps view.now detached.now refusal verifier.old verifier.new) }
    ensures fault { IfErr result (λ refusal. refusal ≡ SigRefusal.VerifierFault → Rose (V.faults verifier.old) (V.faults verifier.new)) }
    ensures faults { V.faults verifier.old ≤ V.faults verifier.new }
    ensures told { V.faults verifier.old < V.faults verifier.new → result ≡ Err SigRefusal.VerifierFault }
{
    let lines = detached.signatures.as_slice();
    let mut report = SigReport {
        checked: Seq::new(Vec::new(alloc)),
        skipped: 0,
        bad: 0,
    };
    if lines.len() > 4_294_967_295 {
        return Err(SigRefusal::Memory);
    }
    'lines: for line in lines {
        tell_line(&mut report, alloc, view, detached, line, verifier)?;
    }
    Ok(report)
}

/// What comes of the lines of detached signatures under what an authority has computed (dir-spec, "Serving and fetching detached
/// signatures"). A line is checked over the document's own digest of its flavour: a `directory-signature` with SHA-1 over
/// `consensus-digest`, one of microdesc with SHA-256 over the first `additional-digest` of microdesc that is a SHA-256. A line of
/// another flavour or algorithm, of an authority or key that the view lacks, or of microdesc where that digest is missing, is
/// skipped. Each other is among the checked, and the verifier may accept it, or counted as bad, and the verifier may refuse it.
///
/// # Errors
/// The first that applies: `Document` is the first fault of the bytes; `WrongPeriod` where their valid-after differs from the
/// view's; `VerifierFault` only where the verifier's count of faults rose, and wherever it is greater. The verifier is asked of
/// each line that is not skipped, in their order, and of nothing else. `Memory` is want of memory.
pub fn check_signatures<V: Verifier>(
    alloc: Global,
    bytes: &[u8],
    view: &PeriodView,
    verifier: &mut V,
) -> Result<SigReport<V>, SigRefusal>
    requires { length bytes.now < 2 ^ 62 }
    ensures checked { IfOk result (λ report. ChecksAll (rules V.may_accept V.may_refuse) V.steps bytes.now view.now (tally_of report.checked report.skipped report.bad) verifier.old verifier.new) }
    ensures refused { IfErr result (λ refusal. RefusedBy V.steps bytes.now view.now refusal verifier.old verifier.new) }
    ensures fault { IfErr result (λ refusal. refusal ≡ SigRefusal.VerifierFault → Rose (V.faults verifier.old) (V.faults verifier.new)) }
    ensures faults { V.faults verifier.old ≤ V.faults verifier.new }
    ensures told { V.faults verifier.old < V.faults verifier.new → result ≡ Err SigRefusal.VerifierFault }
{
    let detached = match read(alloc, bytes) {
        Ok((detached, _)) => detached,
        Err(ReadRefusal::Frame(fault)) => return Err(SigRefusal::Document(fault)),
        Err(ReadRefusal::Memory) => return Err(SigRefusal::Memory),
    };
    if detached.valid_after != view.valid_after {
        let valid_after = detached.valid_after;
        return Err(SigRefusal::WrongPeriod { valid_after });
    }
    check_lines(alloc, view, &detached, verifier)
}
