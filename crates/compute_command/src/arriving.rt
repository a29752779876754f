// The votes of an input, which are checked as its bytes arrive.
ghost use Rattle.std.specs.Prelude.{◌≡◌, ◌++◌, None, length, take, IfOk};
ghost use Rattle.key_port.specs.Answers.{rules};
ghost use Rattle.compute_command.specs.{Asked.{AskedBefore, AsksArrived}, Arriving.{BeginsBehind, EndsAll, HasArrived}};
ghost use Rattle.compute_command.specs.Arriving.{IsArriving, NoneArrived, TellsEnd, TurnsTo, WithMore};
ghost use Rattle.compute_command.specs.{Checked.TellsOn, Rests.HasRest};

use crate::checking::Checking;
use crate::refusal::EndRefusal;
use crate::rest::{Rest, Turn};
use daemon_words::{Compute, Stop};
use dir_bytes::Memory;
use key_port::Verifier;
use std::alloc::Global;
use vote_doc::Accepted;

/// An input whose bytes arrive, and its votes, which are checked as they end.
#[derive(Drop)]
pub(crate) struct Arriving {
    /// Where the last vote ends that was read.
    pub(crate) start: u64,
    /// What is known of the bytes behind it.
    pub(crate) rest: Rest,
    /// The votes that were read.
    pub(crate) votes: Checking,
}

impl Arriving {
    /// The input behind these votes, the last of which ends at a place.
    ///
    /// # Errors
    /// `Memory` is want of memory.
    fn behind(alloc: Global, start: u64, votes: Checking) -> Result<Arriving, Memory>
        ensures begins { IfOk result (λ new. BeginsBehind start votes new) }
        ensures same { IfOk result (λ new. new.votes ≡ votes) }
    {
        let rest = Rest::new(alloc, votes.is_full())?;
        Ok(Arriving { start, rest, votes })
    }

    /// No byte has come yet.
    ///
    /// # Errors
    /// `Memory` is want of memory.
    pub(crate) fn new(alloc: Global) -> Result<Arriving, Memory>
        ensures none { IfOk result NoneArrived }
        ensures first { IfOk result (λ new. new.votes.first ≡ None) }
    {
        Arriving::behind(alloc, 0, Checking::new(alloc)?)
    }

    /// Takes what of a piece is of one vote more, and checks the vote where it ends.
    ///
    /// # Errors
    /// `Memory` is want of memory.
    fn turn<V: Verifier>(
        self,
        alloc: Global,
        wanted: &Compute,
        piece: &[u8],
        verifier: &mut V,
    ) -> Result<(Arriving, usize), Memory>
        requires { HasArrived (rules V.may_accept V.may_refuse) wanted.now self (length piece.now) }
        ensures turns { WithMore (rules V.may_accept V.may_refuse) wanted.now self (length piece.now) (λ bytes.
            IfOk result (λ next. TurnsTo (rules V.may_accept V.may_refuse) wanted.now bytes piece.now next.0 next.1)) }
        ensures faults { IfOk result (λ next. TellsOn (V.faults verifier.old) (V.faults verifier.new)
            self.votes.first next.0.votes.first) }
        ensures asked { AskedBefore V.steps (rules V.may_accept V.may_refuse) wanted.now self (length piece.now)
            verifier.old (λ start bytes. IfOk result (λ next. AsksArrived V.steps (rules V.may_accept V.may_refuse)
            wanted.now (bytes ++ take next.1 piece.now) next.0 start verifier.new)) }
    {
        let Arriving { start, rest, votes } = self;
        match rest.feed(alloc, start, piece)? {
            Turn::On { rest, taken } => Ok((Arriving { start, rest, votes }, taken)),
            Turn::Vote {
                vote,
                length,
                taken,
            } => {
                let mut votes = votes;
                votes.check(wanted, vote, verifier);
                let next = Arriving::behind(alloc, start + length as u64, votes)?;
                Ok((next, taken))
            }
        }
    }

    /// Takes a piece, and checks each vote that ends in it.
    ///
    /// # Errors
    /// `Memory` is want of memory.
    pub(crate) fn take<V: Verifier>(
        self,
        alloc: Global,
        wanted: &Compute,
        piece: &[u8],
        verifier: &mut V,
    ) -> Result<Arriving, Memory>
        requires { HasArrived (rules V.may_accept V.may_refuse) wanted.now self (length piece.now) }
        ensures arrives { WithMore (rules V.may_accept V.may_refuse) wanted.now self (length piece.now) (λ bytes.
            IfOk result (λ now. IsArriving (rules V.may_accept V.may_refuse) wanted.now (bytes ++ piece.now) now)) }
        ensures faults { IfOk result (λ now. TellsOn (V.faults verifier.old) (V.faults verifier.new)
            self.votes.first now.votes.first) }
        ensures asked { AskedBefore V.steps (rules V.may_accept V.may_refuse) wanted.now self (length piece.now)
            verifier.old (λ start bytes. IfOk result (λ now. AsksArrived V.steps (rules V.may_accept V.may_refuse)
            wanted.now (bytes ++ piece.now) now start verifier.new)) }
    {
        let mut now = self;
        let mut left = piece;
        'turns: while !left.is_empty() {
            let (next, taken) = now.turn(alloc, wanted, left, verifier)?;
            now = next;
            left = &left[taken..];
        }
        Ok(now)
    }

    /// The held votes where no more bytes follow, or why there are none: the input's first fault, or why a vote is
    /// refused.
    ///
    /// # Errors
    /// `Refused` is why there are none. `Memory` is want of memory.
    pub(crate) fn end(self) -> Result<Accepted, Stop<EndRefusal>>
        requires { HasRest self.start self.rest 0 }
        ensures ends { EndsAll self result }
        ensures first { TellsEnd self.votes.first result }
    {
        let Arriving { start, rest, votes } = self;
        match rest.finish(start)? {
            Some(fault) => Err(Stop::Refused(EndRefusal::Fault(fault))),
            None => match votes.end() {
                Ok(accepted) => Ok(accepted),
                Err(why) => Err(Stop::Refused(EndRefusal::Votes(why))),
            },
        }
    }
}
