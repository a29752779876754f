// Reading a vote.
ghost use Rattle.std.specs.Prelude.{◌≡◌, ◌<◌, ◌^◌, length, IfOk};
ghost use Rattle.vote_doc.specs.Facts as facts;
ghost use Rattle.vote_doc.specs.Reading.{KeepsVote, ReadsVote};

use crate::head_values::values_of;
use crate::kept::{Kept, nothing_kept};
use crate::vote::Vote;
use bytes::Bytes;
use dir_bytes::Memory;
use dirdoc_grammar::Items;
use frame_reader::read_document;
use frame_terms::ReadRefusal;
use std::alloc::Global;
use vote_entries::most_entries;
use vote_frame::VoteFrame;
use vote_terms::MAX_VOTE;

/// The vote that these bytes are, of which this was kept: where a reader kept it of them, the vote that it read. The vote
/// has the bytes, which are not read again.
///
/// # Errors
/// `Memory` is want of memory.
pub fn vote_in(alloc: Global, bytes: Bytes, kept: Kept) -> Result<Vote, Memory>
    requires { length bytes < 2 ^ 62 }
    ensures { IfOk result (λ vote. vote ≡ facts.vote_in bytes kept) }
{
    let values = values_of(alloc, &bytes, &kept.head)?;
    Ok(Vote::new(bytes, kept, values))
}

/// What is kept of the vote that bytes begin with, and the place after it.
///
/// # Errors
/// `Frame` is the first fault of the vote, `Memory` want of memory.
fn keep(alloc: Global, bytes: &[u8]) -> Result<(Kept, u64), ReadRefusal>
    requires { length bytes.now < 2 ^ 62 }
    ensures { KeepsVote bytes.now result }
{
    let mut items = Items::new(bytes, MAX_VOTE);
    let length = bytes.len() as u64;
    let mut kept = nothing_kept(alloc, most_entries(length.min(MAX_VOTE) as usize))?;
    let end = read_document(alloc, VoteFrame, &mut items, length, &mut kept)?;
    Ok((kept, end))
}

/// The vote that the bytes begin with, behind blank lines if there are some, and the place after it: it ends with the
/// object of its `directory-signature`. The vote shares the bytes, which are kept for as long as it is.
///
/// # Errors
/// `Frame` is the first fault of the vote: what is wrong and at which byte. `Memory` is want of memory.
pub fn read(alloc: Global, bytes: &Bytes) -> Result<(Vote, usize), ReadRefusal>
    requires short { length bytes.now < 2 ^ 62 }
    ensures { ReadsVote bytes.now result }
{
    let (kept, end) = match keep(alloc, bytes) {
        Ok(read) => read,
        Err(refusal) => return Err(refusal),
    };
    let own = bytes.slice(..end as usize)?;
    match vote_in(alloc, own, kept) {
        Ok(vote) => Ok((vote, end as usize)),
        Err(_) => Err(ReadRefusal::Memory),
    }
}
