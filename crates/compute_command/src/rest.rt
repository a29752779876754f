// What is known of the bytes behind the votes that were read.
ghost use Rattle.std.specs.Prelude.{◌≡◌, ◌<◌, ◌+◌, ◌^◌, ℕ, [], List, length, true, IfOk};
ghost use Rattle.vote_feed.specs.Feeding.{IsOpen, IsWhole};
ghost use Rattle.compute_command.specs.{Furthers.IsFurther, Rests.{AnswersEnd, HasNoVote, HasRest, IsFaultOf, IsRest}};
ghost use Rattle.compute_command.specs.{Rests.{IsVoteOf, Turns}, Tails.tail_of};
ghost use Rattle.compute_command.specs.Rests as terms;

use crate::beyond::Beyond;
use crate::tail::{Tail, tail_after};
use dir_bytes::Memory;
use frame_terms::{FrameFault, ReadRefusal};
use std::alloc::Global;
use vote_doc::Vote;
use vote_feed::{Fed, VoteFeeder};

/// What is known of the bytes behind the votes that were read, as one vote more.
#[derive(Drop)]
pub(crate) enum Stage {
    /// They may begin one, and nothing is known of it.
    Reading(VoteFeeder),
    /// They may begin none, since there are as many votes as there may be.
    Full(Beyond),
    /// They have this fault, if they are no blank lines alone, whatever follows. Its place counts from the input's
    /// first byte.
    Faulted(FrameFault),
}

/// What is known of the bytes behind the votes that were read.
#[derive(Drop)]
pub(crate) struct Rest {
    /// What they are, as blank lines.
    pub(crate) tail: Tail,
    /// What they are, as one vote more.
    pub(crate) stage: Stage,
}

/// What comes of more bytes.
#[derive(Drop)]
pub(crate) enum Turn {
    /// No vote ended.
    On {
        rest: Rest,
        /// So many of the bytes were taken.
        taken: usize,
    },
    /// A vote ended.
    Vote {
        vote: Vote,
        /// So many bytes it has, with the blank lines before it.
        length: usize,
        /// So many of the bytes were taken.
        taken: usize,
    },
}

/// The vote that whole bytes are, and how many they are.
///
/// # Errors
/// `Memory` is want of memory.
fn whole_vote(feeder: VoteFeeder) -> Result<(Vote, usize), Memory>
    requires { IsWhole feeder }
    ensures { IfOk result (λ read. IsVoteOf feeder read) }
{
    match feeder.finish() {
        Ok(read) => Ok(read),
        Err(ReadRefusal::Memory) => Err(Memory),
        Err(ReadRefusal::Frame(_)) => unreachable!(),
    }
}

/// The fault of bytes that are no vote, where they stand behind so many others.
///
/// # Errors
/// `Memory` is want of memory.
fn vote_fault(start: u64, feeder: VoteFeeder) -> Result<FrameFault, Memory>
    requires none { HasNoVote feeder }
    requires short { start + length feeder < 2 ^ 61 }
    ensures { IfOk result (λ fault. IsFurther start (λ own. IsFaultOf feeder own) fault) }
{
    match feeder.finish() {
        Err(ReadRefusal::Frame(fault)) => Ok(FrameFault {
            place: start + fault.place,
            reason: fault.reason,
        }),
        Err(ReadRefusal::Memory) => Err(Memory),
        Ok(_) => unreachable!(),
    }
}

/// All of these bytes are taken, and no vote ends.
fn on(tail: Tail, stage: Stage, piece: &[u8]) -> Turn
    ensures { result ≡ terms.turn_on tail stage piece.now }
{
    let tail = tail_after(tail, piece);
    Turn::On {
        rest: Rest { tail, stage },
        taken: piece.len(),
    }
}

/// Takes bytes of a vote of which nothing is known.
///
/// # Errors
/// `Memory` is want of memory.
fn read_on(
    alloc: Global,
    start: u64,
    tail: Tail,
    feeder: VoteFeeder,
    piece: &[u8],
) -> Result<Turn, Memory>
    requires open_ { IsOpen feeder }
    requires short { start + length feeder + length piece.now < 2 ^ 61 }
    ensures { (room : ℕ) → 0 < room → tail ≡ tail_of feeder
        → IfOk result (λ turn. Turns start room feeder piece.now turn) }
{
    let mut feeder = feeder;
    match feeder.feed(piece)? {
        Fed::All => Ok(on(tail, Stage::Reading(feeder), piece)),
        Fed::Whole { taken } => {
            let (vote, length) = whole_vote(feeder)?;
            Ok(Turn::Vote {
                vote,
                length,
                taken,
            })
        }
        Fed::Fault { taken } => {
            let fault = vote_fault(start, feeder)?;
            Ok(on(tail, Stage::Faulted(fault), &piece[..taken]))
        }
    }
}

/// Takes bytes behind the last vote that may be there.
///
/// # Errors
/// `Memory` is want of memory.
fn look_on(start: u64, tail: Tail, beyond: Beyond, piece: &[u8]) -> Result<Turn, Memory>
    requires short { start + length beyond + length piece.now < 2 ^ 61 }
    ensures { tail ≡ tail_of beyond → IfOk result (λ turn. Turns start 0 beyond piece.now turn) }
{
    let mut beyond = beyond;
    match beyond.feed(start, piece)? {
        Some(fault) => Ok(on(tail, Stage::Faulted(fault), piece)),
        None => Ok(on(tail, Stage::Full(beyond), piece)),
    }
}

impl Rest {
    /// No byte has come yet behind the votes, which may be all that there may be.
    ///
    /// # Errors
    /// `Memory` is want of memory.
    pub(crate) fn new(alloc: Global, is_full: bool) -> Result<Rest, Memory>
        ensures { (start room : ℕ) → (is_full ≡ true → room ≡ 0) → (room ≡ 0 → is_full ≡ true)
            → IfOk result (λ rest. IsRest start room [] rest) }
    {
        let tail = Tail::Blank(0);
        if is_full {
            let stage = Stage::Full(Beyond::new(alloc));
            return Ok(Rest { tail, stage });
        }
        let stage = Stage::Reading(VoteFeeder::new(alloc)?);
        Ok(Rest { tail, stage })
    }

    /// Takes what of the piece is of one vote more, where the votes end at a place.
    ///
    /// # Errors
    /// `Memory` is want of memory.
    pub(crate) fn feed(self, alloc: Global, start: u64, piece: &[u8]) -> Result<Turn, Memory>
        requires { HasRest start self (length piece.now) }
        ensures { (room : ℕ) (bytes : List ℕ) → IsRest start room bytes self
            → start + length bytes + length piece.now < 2 ^ 61
            → IfOk result (λ turn. Turns start room bytes piece.now turn) }
    {
        let Rest { tail, stage } = self;
        match stage {
            Stage::Reading(feeder) => read_on(alloc, start, tail, feeder, piece),
            Stage::Full(beyond) => look_on(start, tail, beyond, piece),
            Stage::Faulted(fault) => Ok(on(tail, Stage::Faulted(fault), piece)),
        }
    }

    /// The fault of the bytes, where no more follow and they are no blank lines alone, and the votes end at a place.
    ///
    /// # Errors
    /// `Memory` is want of memory.
    pub(crate) fn finish(self, start: u64) -> Result<Option<FrameFault>, Memory>
        requires { HasRest start self 0 }
        ensures { (room : ℕ) (bytes : List ℕ) → IsRest start room bytes self → start + length bytes < 2 ^ 61
            → IfOk result (λ fault. AnswersEnd start room bytes fault) }
    {
        let Rest { tail, stage } = self;
        if tail.is_end() {
            return Ok(None);
        }
        match stage {
            Stage::Reading(feeder) => Ok(Some(vote_fault(start, feeder)?)),
            Stage::Full(beyond) => Ok(beyond.finish(start)),
            Stage::Faulted(fault) => Ok(Some(fault)),
        }
    }
}
