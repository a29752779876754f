// Reading an uploaded vote while its body arrives.
ghost use Rattle.std.specs.Prelude.{◌≡◌, ◌≤◌, ◌<◌, ◌^◌, Err};
ghost use Rattle.dir_bytes.specs.Causes.{Rose};
ghost use Rattle.lone_vote.specs.Reading.{GivesVote};

use crate::coming::LoneVote;
use dir_bytes::Source;
use dir_http::{BodyReader, Head, HttpFault};
use std::alloc::Global;
use vote_doc::Vote;

/// Reads the body behind a head, in pieces, and with it the vote that it is, if it is one, with nothing but blank lines
/// behind it. Of a body that is already known to be none the rest is read too, and let go.
///
/// # Errors
/// `Truncated` where the source ended before the body did; `ReadFault` where it failed; `Memory` is want of memory.
pub fn read_vote<S: Source>(
    alloc: Global,
    head: &Head,
    source: &mut S,
) -> Result<Option<Vote>, HttpFault>
    requires { head.now.length < 2 ^ 61 }
    ensures answer { GivesVote head.now (S.left source.old) result }
    ensures fault { result ≡ Err HttpFault.ReadFault → Rose (S.faults source.old) (S.faults source.new) }
    ensures faults { S.faults source.old ≤ S.faults source.new }
    // A source that failed is told.
    ensures told { S.faults source.old < S.faults source.new → result ≡ Err HttpFault.ReadFault }
{
    let mut vote = LoneVote::new(alloc)?;
    let mut reader = BodyReader::new(head);
    let mut piece = [0u8; 65536];
    'pieces: loop {
        match reader.next(head, source, &mut piece) {
            Ok(0) => return Ok(vote.end()),
            Ok(count) => vote = vote.take(&piece[..count])?,
            Err(fault) => return Err(fault),
        }
    }
}
