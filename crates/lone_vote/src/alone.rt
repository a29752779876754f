// A vote alone, of bytes that are there.
ghost use Rattle.std.specs.Prelude.{MatchResult};
ghost use Rattle.lone_vote.specs.Alone.{IsFound, IsVote};

use crate::coming::LoneVote;
use dir_bytes::Memory;
use std::alloc::Global;
use vote_doc::Vote;

/// The vote that the bytes are, if they are one, with nothing but blank lines behind it.
///
/// # Errors
/// `Memory` is want of memory.
pub fn lone_vote(alloc: Global, bytes: &[u8]) -> Result<Option<Vote>, Memory>
    ensures { MatchResult result (IsFound (IsVote bytes.now)) (λ _. Unit {0}) }
{
    let lone = LoneVote::new(alloc)?.take(bytes)?;
    Ok(lone.end())
}
