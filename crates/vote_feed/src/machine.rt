// How far a vote is read whose bytes arrive.
ghost use Rattle.std.specs.Prelude.{◌<◌, ◌^◌, List, ℕ, false, length, IfOk};
ghost use Rattle.dirdoc_grammar.specs.{Cursors.fed_by, Feeding.EndsNoEarlier};
ghost use Rattle.vote_feed.specs.Lending.{Comes, VoteSoFar};

use dirdoc_grammar::{Cursor, Take};
use frame_reader::Reader;
use frame_terms::ReadRefusal;
use std::alloc::{AllocError, Global};
use vote_doc::{Kept, nothing_kept};
use vote_frame::VoteFrame;

/// How many bytes a vote may have.
pub(crate) const MAX_VOTE: usize = vote_terms::MAX_VOTE as usize;

/// How far a vote has come.
#[derive(Clone, Copy)]
pub(crate) enum Reached {
    /// All that has come is read, and the vote is neither whole nor faulty.
    All,
    /// The vote is whole, and ends at this place.
    Whole(u64),
}

/// How far a vote is read.
#[derive(Drop)]
pub(crate) struct Machine {
    /// Where the reading stands in the bytes.
    pub(crate) cursor: Cursor,
    /// What is open of the vote there.
    pub(crate) reader: Reader<VoteFrame>,
    /// What is kept of its sections that have ended.
    pub(crate) kept: Kept,
}

impl Machine {
    /// Nothing is read yet, whatever the bytes are.
    ///
    /// # Errors
    /// There was no memory.
    pub(crate) fn new(alloc: Global) -> Result<Machine, AllocError>
        ensures { IfOk result (λ machine. (bytes : List ℕ) → VoteSoFar bytes machine.cursor
            machine.reader.across machine.reader.state machine.kept) }
    {
        let kept = nothing_kept(alloc, 0)?;
        Ok(Machine {
            cursor: Cursor::new(MAX_VOTE as u64),
            reader: Reader::new(alloc, VoteFrame),
            kept,
        })
    }
}

/// Reads on in a vote of which these bytes have come, where nothing was known of the first `known` of them.
///
/// # Errors
/// The first fault of the vote, whatever follows; or want of memory. How far it was read is of no use then.
pub(crate) fn read_on(
    alloc: Global,
    bytes: &[u8],
    known: usize,
    machine: &mut Machine,
) -> Result<Reached, ReadRefusal>
    requires so_far { VoteSoFar bytes.now machine.old.cursor machine.old.reader.across
        machine.old.reader.state machine.old.kept }
    requires later { EndsNoEarlier known (fed_by machine.old.cursor bytes.now false) }
    requires short { length bytes.now < 2 ^ 62 }
    ensures { Comes known bytes.now machine.new.cursor machine.new.reader.across
        machine.new.reader.state machine.new.kept result }
{
    'items: loop {
        match machine.cursor.take(bytes, false) {
            Take::Item(item) => match machine
                .reader
                .take(alloc, VoteFrame, &mut machine.kept, &item)
            {
                Ok(None) => {}
                Ok(Some(used)) => return Ok(Reached::Whole(used)),
                Err(refusal) => return Err(refusal),
            },
            Take::Fault(fault) => return Err(ReadRefusal::from(fault)),
            Take::NotYet | Take::End => return Ok(Reached::All),
        }
    }
}
