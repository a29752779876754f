// The vote of bytes that were taken.
ghost use Rattle.std.specs.Prelude.{◌≡◌, IfOk};
ghost use Rattle.item_feeder.specs.Feeders.{KeepsWithin};
ghost use Rattle.vote_terms.specs.Votes.{max_vote};
ghost use Rattle.vote_doc.specs.Reading.{ReadsVote};
ghost use Rattle.vote_feed.specs.Lending.{IsKeptOf, taken_of};

use bytes::Bytes;
use frame_terms::ReadRefusal;
use std::alloc::{AllocError, Global};
use vote_doc::{Kept, Vote, read, vote_in};

/// The bytes with the one beside them.
///
/// # Errors
/// There was no memory.
pub(crate) fn with_beside(bytes: Vec<u8>, beside: Option<u8>) -> Result<Vec<u8>, AllocError>
    ensures { IfOk result (λ all. all.items ≡ taken_of bytes.items beside) }
{
    match beside {
        Some(byte) => {
            let mut all = bytes;
            all.push(byte)?;
            Ok(all)
        }
        None => Ok(bytes),
    }
}

/// The whole vote that these bytes are, of which this was kept, and how many they are.
///
/// # Errors
/// `Memory` is want of memory.
pub(crate) fn whole_vote(
    alloc: Global,
    bytes: Vec<u8>,
    beside: Option<u8>,
    kept: Kept,
) -> Result<(Vote, usize), ReadRefusal>
    requires within { KeepsWithin max_vote bytes.items beside }
    requires whole { IsKeptOf (taken_of bytes.items beside) kept }
    ensures { ReadsVote (taken_of bytes.items beside) result }
{
    let bytes = with_beside(bytes, beside)?;
    let bytes = Bytes::from_vec(bytes)?;
    let count = bytes.len();
    match vote_in(alloc, bytes, kept) {
        Ok(vote) => Ok((vote, count)),
        Err(_) => Err(ReadRefusal::Memory),
    }
}

/// The vote that these bytes begin with, which are read for it, and the place after it.
///
/// # Errors
/// `Frame` is the first fault of the vote, with its place. `Memory` is want of memory.
pub(crate) fn read_vote(
    alloc: Global,
    bytes: Vec<u8>,
    beside: Option<u8>,
) -> Result<(Vote, usize), ReadRefusal>
    requires { KeepsWithin max_vote bytes.items beside }
    ensures { ReadsVote (taken_of bytes.items beside) result }
{
    let bytes = with_beside(bytes, beside)?;
    let bytes = Bytes::from_vec(bytes)?;
    read(alloc, &bytes)
}
