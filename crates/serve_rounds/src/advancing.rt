// A state that is advanced until nothing more comes of a moment.
ghost use Rattle.std.specs.Prelude.{◌≡◌, ◌≤◌, ◌⊎◌, Ok, true, IsTrue};
ghost use Rattle.dir_bytes.specs.Causes.{Rose};
ghost use Rattle.key_port.specs.Answers.{rules};
ghost use Rattle.serve_board.specs.Boards.{IsAt, Advances, Parts};
ghost use Rattle.serve_rounds.specs.{Duties.{AdvancesAll, IsAdvance, Settles}, Exchanges.HasSigned, Spans.Adds};

use dir_bytes::Memory;
use key_port::{Signer, Verifier};
use period_terms::Advance;
use serve_board::{Board, Pass};
use std::alloc::Global;
use std::sync::Wait;

/// Whether the state is not advanced again behind this answer.
fn settles(answer: &Result<Advance, Memory>) -> bool
    ensures { IsTrue result → Settles answer.now }
{
    match answer {
        Ok(Advance::Nothing)
        | Ok(Advance::EndOfTime)
        | Ok(Advance::SignerFault)
        | Ok(Advance::VerifierFault)
        | Ok(Advance::OwnSignatureRefused { .. })
        | Err(_) => true,
        _ => false,
    }
}

/// Whether the authority signed in the period, as an answer tells: before, or now; and not where the next period began.
fn signed_after(before: bool, answer: &Result<Advance, Memory>) -> bool
    ensures { result ≡ true → (answer.now ≡ Ok Advance.Signed) ⊎ (before ≡ true) }
{
    match answer {
        Ok(Advance::Signed) => true,
        Ok(Advance::Began { .. }) => false,
        _ => before,
    }
}

/// Advances the state by one step, if the moment brings one.
///
/// # Errors
/// `Memory` is want of memory, and then nothing was changed.
fn advance_once<H: Wait, V: Verifier, N: Signer>(
    rt: &H,
    alloc: Global,
    board: &Board<V>,
    pass: &mut Pass<V>,
    now: u64,
    verifier: &mut V,
    signer: &mut N,
) -> Result<Advance, Memory>
    requires at { IsAt board.now pass.old }
    ensures event { Advances (rules V.may_accept V.may_refuse) board.now pass.old pass.new N.may_give now result }
    ensures adds { (a : Parts)
        → Adds (IsAdvance N.may_give (rules V.may_accept V.may_refuse) board.now now) a pass.old
        → Adds (IsAdvance N.may_give (rules V.may_accept V.may_refuse) board.now now) a pass.new }
    ensures signed { result ≡ Ok Advance.Signed → HasSigned pass.old pass.new }
    ensures at { IsAt board.now pass.new }
    ensures signer_fault { result ≡ Ok Advance.SignerFault → Rose (N.faults signer.old) (N.faults signer.new) }
    ensures signer_faults { N.faults signer.old ≤ N.faults signer.new }
    ensures verifier_fault { result ≡ Ok Advance.VerifierFault → Rose (V.faults verifier.old) (V.faults verifier.new) }
    ensures verifier_faults { V.faults verifier.old ≤ V.faults verifier.new }
{
    board.advance(rt, alloc, pass, now, signer, verifier)
}

/// Advances the state until that brings nothing more at the moment, or can't be done. With the last answer it tells whether the
/// authority signed, in the period that it is in then.
pub(crate) fn advance_all<H: Wait, V: Verifier, N: Signer>(
    rt: &H,
    alloc: Global,
    board: &Board<V>,
    pass: &mut Pass<V>,
    now: u64,
    verifier: &mut V,
    signer: &mut N,
) -> (Result<Advance, Memory>, bool)
    requires at { IsAt board.now pass.old }
    ensures advanced { AdvancesAll N.may_give (rules V.may_accept V.may_refuse) board.now pass.old pass.new now
        result.0 }
    ensures signed { result.1 ≡ true → HasSigned pass.old pass.new }
    ensures at { IsAt board.now pass.new }
    ensures signer_fault { result.0 ≡ Ok Advance.SignerFault → Rose (N.faults signer.old) (N.faults signer.new) }
    ensures signer_faults { N.faults signer.old ≤ N.faults signer.new }
    ensures verifier_fault { result.0 ≡ Ok Advance.VerifierFault → Rose (V.faults verifier.old) (V.faults
        verifier.new) }
    ensures verifier_faults { V.faults verifier.old ≤ V.faults verifier.new }
{
    let mut signed = false;
    'steps: for _ in rt.forever() {
        let answer = advance_once(rt, alloc, board, pass, now, verifier, signer);
        if settles(&answer) {
            return (answer, signed);
        }
        signed = signed_after(signed, &answer);
    }
    unreachable!()
}
