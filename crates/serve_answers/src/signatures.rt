// Signatures that are uploaded.
ghost use Rattle.std.specs.Prelude.{◌≡◌, ◌≤◌, ◌<◌, ◌^◌, IfOk, OnErr, length};
ghost use Rattle.key_port.specs.Answers.{rules};
ghost use Rattle.checked_sigs.specs.Checks.{tally_of};
ghost use Rattle.serve_board.specs.{Boards.IsAt, Going.Goes};
ghost use Rattle.serve_answers.specs.{Finding.AddsNothing, Handling.{OffersAccepted, SignsHeld, TakesSignatures}};
ghost use Rattle.serve_answers.specs.Handling as handling;

use checked_sigs::{SigRefusal, SigReport, check_signatures};
use dir_bytes::Memory;
use http_words::{Reply, Word};
use key_port::Verifier;
use period_terms::{CheckedSig, SignIn};
use serve_board::{Board, Pass};
use std::alloc::Global;
use std::sync::Wait;

/// The reply to signatures of which none may be held. After want of memory there is none.
fn reply_to_signatures(refusal: SigRefusal) -> Option<Reply>
    ensures { result ≡ handling.reply_to_signatures refusal }
{
    match refusal {
        SigRefusal::Document(_) => Some(Reply::Refused(Word::Document)),
        SigRefusal::WrongPeriod { .. } => Some(Reply::Refused(Word::OtherPeriod)),
        SigRefusal::VerifierFault => Some(Reply::VerifierFault),
        SigRefusal::Memory => None,
    }
}

/// Whether a signature is held then.
fn is_held(answer: &SignIn) -> bool
    ensures { result ≡ handling.is_held answer.now }
{
    match answer {
        SignIn::Have => true,
        SignIn::Kept { .. } => true,
        SignIn::OtherPeriod { .. } => false,
        SignIn::NotComputed => false,
        SignIn::OtherDigest { .. } => false,
        SignIn::Stranger { .. } => false,
        SignIn::Closed => false,
    }
}

/// Offers signatures one after the other. How many are then held.
fn sign_each<R: Wait, V: Verifier>(
    rt: &R,
    board: &Board<V>,
    pass: &mut Pass<V>,
    signatures: Vec<CheckedSig<V>>,
) -> u64
    requires at { IsAt board.now pass.old }
    requires few { length signatures.items < 2 ^ 32 }
    ensures signs { SignsHeld (rules V.may_accept V.may_refuse) board.now pass.old signatures.items pass.new result }
    ensures at { IsAt board.now pass.new }
    ensures goes { Goes pass.old pass.new }
{
    let mut held = 0u64;
    'signatures: for signature in signatures {
        held += u64::from(is_held(&board.sign_in(rt, pass, signature)));
    }
    held
}

/// Offers those signatures of a report that were accepted, and tells how many of all lines are then held. More than
/// 4,294,967,295 of them, which no document has, are told as want of memory.
///
/// # Errors
/// `Memory` is want of memory, and then nothing was done.
fn offer_accepted<R: Wait, V: Verifier>(
    rt: &R,
    board: &Board<V>,
    pass: &mut Pass<V>,
    report: SigReport<V>,
) -> Result<Reply, Memory>
    requires at { IsAt board.now pass.old }
    ensures offers { IfOk result
        (OffersAccepted (rules V.may_accept V.may_refuse) board.now pass.old
        (tally_of report.checked report.skipped report.bad) pass.new) }
    ensures err { OnErr result (pass.new ≡ pass.old) }
    ensures at { IsAt board.now pass.new }
    ensures goes { Goes pass.old pass.new }
{
    let SigReport {
        checked,
        skipped,
        bad,
    } = report;
    if checked.len() > 4_294_967_295 {
        return Err(Memory);
    }
    let lines = checked.len() as u64 + u64::from(skipped) + u64::from(bad);
    let held = sign_each(rt, board, pass, checked.into_vec());
    Ok(Reply::Taken { held, lines })
}

/// Takes signatures that are uploaded: they are checked against what is seen once, and then offered one by one.
///
/// # Errors
/// `Memory` is want of memory, and then nothing was added.
pub fn take_signatures<R: Wait, V: Verifier>(
    rt: &R,
    alloc: Global,
    board: &Board<V>,
    pass: &mut Pass<V>,
    verifier: &mut V,
    body: &[u8],
) -> Result<Reply, Memory>
    requires at { IsAt board.now pass.old }
    requires short { length body.now < 2 ^ 61 }
    ensures takes { IfOk result
        (TakesSignatures (rules V.may_accept V.may_refuse) V.steps board.now pass.old pass.new (V.faults verifier.old)
        (V.faults verifier.new) verifier.old verifier.new body.now) }
    ensures err { OnErr result (AddsNothing pass.old pass.new) }
    ensures at { IsAt board.now pass.new }
    ensures goes { Goes pass.old pass.new }
    ensures faults { V.faults verifier.old ≤ V.faults verifier.new }
{
    let found = board.view(rt, alloc, pass)?;
    let Some(view) = found else {
        return Ok(Reply::Refused(Word::NotComputed));
    };
    match check_signatures(alloc, body, &view, verifier) {
        Ok(report) => offer_accepted(rt, board, pass, report),
        Err(refusal) => match reply_to_signatures(refusal) {
            Some(reply) => Ok(reply),
            None => Err(Memory),
        },
    }
}
