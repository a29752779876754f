// The body of a request, in pieces.
ghost use Rattle.std.specs.Prelude.{◌≡◌, ◌+◌, ◌≤◌, ◌<◌, Err, length, vec_len};
ghost use Rattle.dir_bytes.specs.Causes.{Rose};
ghost use Rattle.dir_http.specs.Requests.{GivesBody, GivesEarly};

use crate::fault::HttpFault;
use crate::head::Head;
use dir_bytes::{ReadAnswer, Source};

/// Gives the body of a request in pieces.
#[derive(Debug, Drop)]
pub struct BodyReader {
    given: u64,
}

/// The next piece from what was read with the head.
fn early_piece(head: &Head, given: u64, room: usize, out: &mut [u8]) -> usize
    requires some { given < vec_len head.now.early }
    requires short { given < head.now.length }
    requires room { 0 < room }
    requires fits { room ≤ length out.old }
    requires within { given + room ≤ head.now.length }
    ensures { GivesEarly head.now given room result out.new }
{
    let early = &head.early[given as usize..];
    let count = room.min(early.len());
    out[..count].copy_from_slice(&early[..count]);
    count
}

impl BodyReader {
    /// A reader that gave nothing yet.
    pub fn new(_head: &Head) -> BodyReader
        ensures { result.given ≡ 0 }
    {
        BodyReader { given: 0 }
    }

    /// Puts the next bytes of the body at the front of the buffer. None come after the last byte of the body.
    pub fn next<S: Source>(
        &mut self,
        head: &Head,
        source: &mut S,
        out: &mut [u8],
    ) -> Result<usize, HttpFault>
        requires room { 0 < length out.old }
        requires within { self.old.given ≤ head.now.length }
        ensures piece { GivesBody head.now self.old.given self.new.given
            (S.left source.old) (S.left source.new) result out.new }
        ensures fault { result ≡ Err HttpFault.ReadFault → Rose (S.faults source.old) (S.faults source.new) }
        ensures faults { S.faults source.old ≤ S.faults source.new }
        // A source that failed is told.
        ensures told { S.faults source.old < S.faults source.new → result ≡ Err HttpFault.ReadFault }
    {
        let ahead = head.length - self.given;
        if ahead == 0 {
            return Ok(0);
        }
        let room = ahead.min(out.len() as u64) as usize;
        if self.given < head.early.len() as u64 {
            let count = early_piece(head, self.given, room, out);
            self.given += count as u64;
            return Ok(count);
        }
        match source.read(&mut out[..room]) {
            ReadAnswer::Got(count) => {
                self.given += count as u64;
                Ok(count)
            }
            ReadAnswer::End => Err(HttpFault::Truncated {
                have: self.given,
                want: head.length,
            }),
            ReadAnswer::Failed => Err(HttpFault::ReadFault),
        }
    }
}
