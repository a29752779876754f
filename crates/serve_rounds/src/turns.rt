// What is asked of the state in one turn.
ghost use Rattle.std.specs.Prelude.{◌≡◌, MatchResult, is_some};
ghost use Rattle.period_terms.specs.Readings.{document_of};
ghost use Rattle.period_terms.specs.declared.name.Name.TheVariants as names;
ghost use Rattle.checked_sigs.specs.Next.{next_signatures_of};
ghost use Rattle.key_port.specs.Answers.{rules};
ghost use Rattle.serve_board.specs.Boards.{IsAt, Parts, Sees};
ghost use Rattle.serve_rounds.specs.Spans.{AddsNone};

use checked_sigs::next_signatures;
use dir_bytes::{Memory, Text};
use dir_values::Fingerprint;
use key_port::Verifier;
use period_core::PeriodState;
use period_terms::Name;
use serve_board::{Board, Pass, Question};
use std::alloc::Global;
use std::sync::Wait;

/// Whether a vote of an authority is held.
#[derive(Drop)]
struct AskHeld {
    authority: Fingerprint,
}

impl<V: Verifier> Question<PeriodState<V>> for AskHeld {
    type Reply = bool;

    ghost finds = { λ before state reply then. reply ≡ is_some (document_of state (names.Vote before.authority)) };

    fn ask(&mut self, value: &PeriodState<V>) -> bool {
        value.document(&Name::Vote(self.authority)).is_some()
    }
}

/// The document of the signatures that are held.
#[derive(Drop)]
struct AskSignatures {
    alloc: Global,
}

impl<V: Verifier> Question<PeriodState<V>> for AskSignatures {
    type Reply = Result<Option<Text>, Memory>;

    ghost finds = { λ before state reply then. MatchResult reply (λ text. text ≡ next_signatures_of state) (λ _. Unit {0}) };

    fn ask(&mut self, value: &PeriodState<V>) -> Result<Option<Text>, Memory> {
        next_signatures(value, self.alloc)
    }
}

/// Whether a vote of an authority is held.
pub(crate) fn is_held<H: Wait, V: Verifier>(
    rt: &H,
    board: &Board<V>,
    pass: &mut Pass<V>,
    authority: Fingerprint,
) -> bool
    requires at { IsAt board.now pass.old }
    ensures none { (a : Parts) → AddsNone a pass.old → AddsNone a pass.new }
    ensures reading { Sees (rules V.may_accept V.may_refuse) board.now pass.old pass.new (λ state answer. answer ≡
        is_some (document_of state (names.Vote authority))) result }
    ensures at { IsAt board.now pass.new }
{
    let (reply, _) = board.ask(rt, pass, AskHeld { authority });
    reply
}

/// The document of the signatures that are held, if there are texts.
///
/// # Errors
/// `Memory` is want of memory.
pub(crate) fn signatures_held<H: Wait, V: Verifier>(
    rt: &H,
    alloc: Global,
    board: &Board<V>,
    pass: &mut Pass<V>,
) -> Result<Option<Text>, Memory>
    requires at { IsAt board.now pass.old }
    ensures none { (a : Parts) → AddsNone a pass.old → AddsNone a pass.new }
    ensures reading { Sees (rules V.may_accept V.may_refuse) board.now pass.old pass.new (λ state answer. MatchResult
        answer (λ text. text ≡ next_signatures_of state) (λ _. Unit {0})) result }
    ensures at { IsAt board.now pass.new }
{
    let (reply, _) = board.ask(rt, pass, AskSignatures { alloc });
    reply
}
