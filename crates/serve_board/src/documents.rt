// What is read of the state under its lock.
ghost use Rattle.std.specs.Prelude.{◌≡◌, MatchResult, option_map};
ghost use Rattle.key_port.specs.Answers.{rules};
ghost use Rattle.period_core.specs.Views as views;
ghost use Rattle.period_terms.specs.Readings as readings;
ghost use Rattle.serve_board.specs.Boards.{IsAt, Sees};

use crate::board::Board;
use crate::pass::Pass;
use crate::question::Question;
use consensus_terms::Flavour;
use dir_bytes::{Memory, Text};
use key_port::Verifier;
use period_core::PeriodState;
use period_terms::{Name, PeriodView};
use std::alloc::Global;
use std::sync::Wait;

/// When the period begins.
#[derive(Drop)]
struct AskValidAfter;

impl<V: Verifier> Question<PeriodState<V>> for AskValidAfter {
    type Reply = u64;

    ghost finds = { λ before state reply then. reply ≡ state.valid_after };

    fn ask(&mut self, value: &PeriodState<V>) -> u64 {
        value.valid_after()
    }
}

/// What signatures of the period are checked against.
#[derive(Drop)]
struct AskView {
    alloc: Global,
}

impl<V: Verifier> Question<PeriodState<V>> for AskView {
    type Reply = Result<Option<PeriodView>, Memory>;

    ghost finds = { λ before state reply then. MatchResult reply (λ view. view ≡ views.view_of state) (λ _. Unit {0}) };

    fn ask(&mut self, value: &PeriodState<V>) -> Result<Option<PeriodView>, Memory> {
        value.view(self.alloc)
    }
}

/// A document by its name.
#[derive(Drop)]
struct AskDocument {
    alloc: Global,
    name: Name,
}

impl<V: Verifier> Question<PeriodState<V>> for AskDocument {
    type Reply = Result<Option<Text>, Memory>;

    ghost finds = { λ before state reply then. MatchResult reply (λ text. text ≡ readings.document_of state before.name) (λ _. Unit {0}) };

    fn ask(&mut self, value: &PeriodState<V>) -> Result<Option<Text>, Memory> {
        match value.document(&self.name) {
            Some(bytes) => Ok(Some(Text::copy_of(self.alloc, bytes)?)),
            None => Ok(None),
        }
    }
}

/// The consensus of a flavour, with the signatures that are held.
#[derive(Drop)]
struct AskNextConsensus {
    alloc: Global,
    flavour: Flavour,
}

impl<V: Verifier> Question<PeriodState<V>> for AskNextConsensus {
    type Reply = Result<Option<Text>, Memory>;

    ghost finds = { λ before state reply then.
        MatchResult reply (λ text. text ≡ readings.next_consensus_of before.flavour state) (λ _. Unit {0}) };

    fn ask(&mut self, value: &PeriodState<V>) -> Result<Option<Text>, Memory> {
        value.next_consensus(self.alloc, self.flavour)
    }
}

impl<V: Verifier> Board<V> {
    /// When the period begins, in seconds since 1970-01-01 00:00:00 UTC.
    pub fn valid_after<R: Wait>(&self, rt: &R, pass: &mut Pass<V>) -> u64
        requires at { IsAt self.now pass.old }
        ensures reading { Sees (rules V.may_accept V.may_refuse) self.now pass.old pass.new
            (λ state answer. answer ≡ state.valid_after) result }
        ensures at { IsAt self.now pass.new }
    {
        let (reply, _) = self.ask(rt, pass, AskValidAfter);
        reply
    }

    /// What signatures of the period are checked against, if there are texts.
    ///
    /// # Errors
    /// `Memory` is want of memory.
    pub fn view<R: Wait>(
        &self,
        rt: &R,
        alloc: Global,
        pass: &mut Pass<V>,
    ) -> Result<Option<PeriodView>, Memory>
        requires at { IsAt self.now pass.old }
        ensures reading { Sees (rules V.may_accept V.may_refuse) self.now pass.old pass.new
            (λ state answer. MatchResult answer (λ view. view ≡ views.view_of state) (λ _. Unit {0})) result }
        ensures at { IsAt self.now pass.new }
    {
        let (reply, _) = self.ask(rt, pass, AskView { alloc });
        reply
    }

    /// A copy of the document of a name, if there is one.
    ///
    /// # Errors
    /// `Memory` is want of memory.
    pub fn copy<R: Wait>(
        &self,
        rt: &R,
        alloc: Global,
        pass: &mut Pass<V>,
        name: &Name,
    ) -> Result<Option<Text>, Memory>
        requires at { IsAt self.now pass.old }
        ensures reading { Sees (rules V.may_accept V.may_refuse) self.now pass.old pass.new
            (λ state answer. MatchResult answer (λ text. text ≡ readings.document_of state name.now) (λ _. Unit {0})) result }
        ensures at { IsAt self.now pass.new }
    {
        let (reply, _) = self.ask(rt, pass, AskDocument { alloc, name: *name });
        reply
    }

    /// The consensus of a flavour with the signatures that are held, if there are texts.
    ///
    /// # Errors
    /// `Memory` is want of memory.
    pub fn next_consensus<R: Wait>(
        &self,
        rt: &R,
        alloc: Global,
        pass: &mut Pass<V>,
        flavour: Flavour,
    ) -> Result<Option<Text>, Memory>
        requires at { IsAt self.now pass.old }
        ensures reading { Sees (rules V.may_accept V.may_refuse) self.now pass.old pass.new
            (λ state answer. MatchResult answer (λ text. text ≡ readings.next_consensus_of flavour state) (λ _. Unit {0})) result }
        ensures at { IsAt self.now pass.new }
    {
        let (reply, _) = self.ask(rt, pass, AskNextConsensus { alloc, flavour });
        reply
    }
}
