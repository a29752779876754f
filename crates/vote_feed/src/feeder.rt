// A vote that is read while its bytes arrive.
ghost use Rattle.std.specs.Prelude.{◌≡◌, ◌≤◌, ◌+◌, ◌-◌, [], None, length, min, take, true, vec_len, IfOk, Ok, OnErr};
ghost use Rattle.item_feeder.specs.Feeders.{KeepsWithin};
ghost use Rattle.vote_terms.specs.Votes.{max_vote};
ghost use Rattle.vote_doc.specs.Reading.{ReadsVote};
ghost use Rattle.vote_feed.specs.declared.fed.Fed.TheVariants as given;
ghost use Rattle.vote_feed.specs.declared.feeder.State.TheVariants as states;
ghost use Rattle.vote_feed.specs.{Feeding.{Feeds, IsFaulty, IsOpen, IsWhole, are_blank_lines}, Lending.IsKnown};
ghost use Rattle.vote_feed.specs.Lending as terms;

use crate::blanks::{Blank, blank_after};
use crate::fed::Fed;
use crate::finishing::{read_vote, whole_vote, with_beside};
use crate::intake::{Intake, fed_of, taken_part};
use crate::machine::{MAX_VOTE, Machine};
use crate::taking::{make_ready, take_in};
use dir_bytes::Memory;
use frame_terms::{FrameFault, ReadRefusal};
use std::alloc::Global;
use std::marker::Model;
use vote_doc::Vote;

/// What a feeder knows of the bytes that were taken.
#[derive(Clone, Copy, Debug)]
pub(crate) enum State {
    /// They are read, and nothing is known of the vote.
    Going,
    /// Nothing is known of the vote, and the bytes are to be read anew.
    Anew,
    /// The vote is whole.
    Whole,
    /// The vote is faulty: this is its first fault, whatever follows.
    Fault(FrameFault),
}

impl State {
    /// Whether the bytes are read.
    fn is_going(self) -> bool
        ensures { result ≡ true → self ≡ states.Going }
    {
        match self {
            State::Going => true,
            State::Anew | State::Whole | State::Fault(_) => false,
        }
    }
}

/// A vote that is read while its bytes arrive. Contracts see it as the bytes that were taken. They are kept once,
/// and the vote that is read of them shares them.
#[derive(Drop)]
pub struct VoteFeeder {
    alloc: Global,
    bytes: Vec<u8>,
    beside: Option<u8>,
    blank: Blank,
    state: State,
    machine: Machine,
}

impl Model for VoteFeeder {
    ghost use Rattle.std.specs.Prelude.{List, ℕ};
    ghost use Rattle.vote_feed.specs.Lending.{Keeps, taken_of};

    ghost Value = { List ℕ };

    ghost view = { λ s. taken_of s.bytes.items s.beside };

    ghost invariant = { λ s. Keeps s.bytes.items s.beside s.blank s.state
        s.machine.cursor s.machine.reader.across s.machine.reader.state s.machine.kept };
}

/// What of a piece may be taken behind so many bytes: one more than a vote may have tells all of it.
fn within_room(piece: &[u8], count: usize) -> &[u8]
    requires { count ≤ max_vote }
    ensures { result.now ≡ take (max_vote + 1 - count) piece.now }
{
    let room = MAX_VOTE + 1 - count;
    &piece[..piece.len().min(room)]
}

/// The state that a feeder is in after this.
fn state_of(intake: Intake) -> State
    ensures { result ≡ terms.state_of intake }
{
    match intake {
        Intake::All => State::Going,
        Intake::Whole { .. } => State::Whole,
        Intake::Fault { fault, .. } => State::Fault(fault),
    }
}

/// The byte that a vote may not have, if it is there, beside the others.
fn put_beside(bytes: &mut Vec<u8>) -> Option<u8>
    requires { vec_len bytes.old ≤ max_vote + 1 }
    ensures same { terms.taken_of bytes.new.items result ≡ bytes.old.items }
    ensures within { KeepsWithin max_vote bytes.new.items result }
    ensures none { vec_len bytes.old ≤ max_vote → result ≡ None }
{
    if bytes.len() <= MAX_VOTE {
        return None;
    }
    bytes.pop()
}

impl VoteFeeder {
    /// No byte has come yet.
    ///
    /// # Errors
    /// `Memory` is want of memory.
    pub fn new(alloc: Global) -> Result<VoteFeeder, Memory>
        ensures { IfOk result (λ feeder. feeder ≡ []) }
    {
        let machine = Machine::new(alloc)?;
        Ok(VoteFeeder {
            alloc,
            bytes: Vec::new(alloc),
            beside: None,
            blank: Blank::new(),
            state: State::Anew,
            machine,
        })
    }

    /// Takes what of the piece is the vote's, and tells what is known of the vote then. After `Whole` or `Fault` it
    /// takes nothing and answers the same with 0. Without memory all stays as it was.
    ///
    /// # Errors
    /// `Memory` is want of memory.
    pub fn feed(&mut self, piece: &[u8]) -> Result<Fed, Memory>
        ensures fed { IfOk result (λ fed. Feeds self.old piece.now self.new fed) }
        ensures whole { IsWhole self.old → (result ≡ Ok (given.Whole 0)) × (self.new ≡ self.old) }
        ensures faulty { IsFaulty self.old → (result ≡ Ok (given.Fault 0)) × (self.new ≡ self.old) }
        ensures err { OnErr result (self.new ≡ self.old) }
    {
        match self.known() {
            Some(fed) => Ok(fed),
            None => self.go_on(piece),
        }
    }

    /// What is known of the vote already.
    fn known(&self) -> Option<Fed>
        ensures { IsKnown self.now result }
    {
        match self.state {
            State::Going | State::Anew => None,
            State::Whole => Some(Fed::Whole { taken: 0 }),
            State::Fault(_) => Some(Fed::Fault { taken: 0 }),
        }
    }

    /// Takes what of the piece is the vote's, of which nothing is known.
    ///
    /// # Errors
    /// `Memory` is want of memory.
    fn go_on(&mut self, piece: &[u8]) -> Result<Fed, Memory>
        requires { IsOpen self.old }
        ensures fed { IfOk result (λ fed. Feeds self.old piece.now self.new fed) }
        ensures err { OnErr result (self.new ≡ self.old) }
    {
        let is_ready = self.state.is_going();
        self.state = State::Anew;
        make_ready(self.alloc, is_ready, &self.bytes, &mut self.machine)?;
        let part = within_room(piece, self.bytes.len());
        let intake = take_in(self.alloc, &mut self.bytes, &mut self.machine, part)?;
        self.blank = blank_after(self.blank, taken_part(part, intake));
        self.state = state_of(intake);
        self.beside = put_beside(&mut self.bytes);
        Ok(fed_of(intake))
    }

    /// The vote that the bytes begin with which were taken, and the place after it: what `read` answers of them. The
    /// vote shares them. Where the vote is whole, or faulty, they are not read again.
    ///
    /// # Errors
    /// `Frame` is the first fault of the vote, with its place. `Memory` is want of memory.
    pub fn finish(self) -> Result<(Vote, usize), ReadRefusal>
        ensures { ReadsVote self result }
    {
        match self.state {
            State::Going | State::Anew => read_vote(self.alloc, self.bytes, self.beside),
            State::Whole => whole_vote(self.alloc, self.bytes, self.beside, self.machine.kept),
            State::Fault(fault) => Err(ReadRefusal::Frame(fault)),
        }
    }

    /// The bytes that were taken.
    ///
    /// # Errors
    /// `Memory` is want of memory.
    pub fn into_bytes(self) -> Result<Vec<u8>, Memory>
        ensures { IfOk result (λ bytes. bytes.items ≡ self) }
    {
        let bytes = with_beside(self.bytes, self.beside)?;
        Ok(bytes)
    }

    /// How many bytes are kept: those that were taken, and never more than a vote may have.
    pub fn held(&self) -> usize
        ensures { result ≡ min (length self.now) max_vote }
    {
        self.bytes.len()
    }

    /// Whether nothing but blank lines was taken.
    pub fn only_blank(&self) -> bool
        ensures { result ≡ are_blank_lines self.now }
    {
        self.blank.is_lines()
    }
}
