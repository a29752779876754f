// Votes that are checked as they come, and those of them that are held.
ghost use Rattle.std.specs.Prelude.{◌≡◌, ◌<◌, nat_le, None, IfOk};
ghost use Rattle.key_port.specs.Answers.{rules};
ghost use Rattle.compute_command.specs.{Asked.AsksOneMore, Checked.{HasRoom, NoneCame, OneMoreChecked, TellsOn}};
ghost use Rattle.compute_command.specs.Votes.{most_votes};
ghost use Rattle.compute_command.specs.Checked as terms;

use crate::accepting::refused;
use crate::most_votes::MOST_VOTES;
use crate::refusal::AcceptRefusal;
use daemon_words::Compute;
use dir_bytes::Memory;
use key_port::Verifier;
use std::alloc::Global;
use vote_doc::{Accepted, Vote, check_vote};

/// Votes that were checked in their order as they came.
#[derive(Drop)]
pub(crate) struct Checking {
    /// Those that are held.
    pub(crate) kept: Accepted,
    /// Why the first is refused that is. None behind it is checked.
    pub(crate) first: Option<AcceptRefusal>,
    /// How many came.
    pub(crate) count: u64,
}

impl Checking {
    /// No vote has come yet.
    ///
    /// # Errors
    /// `Memory` is want of memory.
    pub(crate) fn new(alloc: Global) -> Result<Checking, Memory>
        ensures checked { IfOk result NoneCame }
        ensures first { IfOk result (λ new. new.first ≡ None) }
    {
        let kept = Accepted::new(alloc, MOST_VOTES as u32)?;
        Ok(Checking {
            kept,
            first: None,
            count: 0,
        })
    }

    /// Whether there are as many votes as there may be.
    pub(crate) fn is_full(&self) -> bool
        ensures { result ≡ nat_le most_votes self.now.count }
    {
        self.count >= MOST_VOTES as u64
    }

    /// Checks one vote more, unless one before it is refused, and holds it. Takes no memory.
    pub(crate) fn check<V: Verifier>(&mut self, wanted: &Compute, vote: Vote, verifier: &mut V)
        requires few { self.old.count < most_votes }
        requires room { HasRoom self.old.count self.old.kept }
        ensures checked { OneMoreChecked (rules V.may_accept V.may_refuse) wanted.now vote self.old self.new }
        ensures faults { TellsOn (V.faults verifier.old) (V.faults verifier.new) self.old.first self.new.first }
        ensures asked { AsksOneMore V.steps vote self.old self.new verifier.old verifier.new }
    {
        self.count += 1;
        if self.first.is_some() {
            return;
        }
        match check_vote(vote, &wanted.roster, wanted.valid_after, verifier) {
            Ok(checked) => {
                let _ = self.kept.place(checked.into_held());
            }
            Err(refusal) => self.first = Some(refused(self.count, refusal)),
        }
    }

    /// The held votes where no more come, or why one is refused.
    pub(crate) fn end(self) -> Result<Accepted, AcceptRefusal>
        ensures { result ≡ terms.end_by self.kept self.first }
    {
        match self.first {
            Some(refusal) => Err(refusal),
            None => Ok(self.kept),
        }
    }
}
