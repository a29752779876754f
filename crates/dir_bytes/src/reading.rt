// Reading a source to its end.
ghost use Rattle.std.specs.Prelude.{◌≡◌, ◌≤◌, ◌<◌, ◌+◌, vec_len, IfErr, IfOk, Err};
ghost use Rattle.dir_bytes.specs.{declared.reading.ReadAllFault.TheVariants.Memory, Causes.Rose, Streams.ReadsAll};
ghost use Rattle.dir_bytes.specs.Streams.{TakesAtMost};

use crate::source::{ReadAnswer, Source};
use std::alloc::{AllocError, Global};

/// Why a source was not read to its end.
#[derive(Clone, Copy, Debug, PartialEq, Eq)]
pub enum ReadAllFault {
    /// The source gave more bytes than the limit.
    TooLong,
    /// The source failed.
    ReadFault,
    /// There was no memory.
    Memory,
}

impl From<AllocError> for ReadAllFault {
    ghost from_gives = { λ _ e. e ≡ Memory };

    fn from(_: AllocError) -> Self {
        ReadAllFault::Memory
    }
}

/// All the bytes that a source gives until its end, of which there may be up to `limit`. After a refusal the source
/// stands where it stopped.
pub fn read_all<S: Source>(
    alloc: Global,
    source: &mut S,
    limit: u64,
) -> Result<Vec<u8>, ReadAllFault>
    ensures whole { ReadsAll (S.left source.old) (S.left source.new) limit result }
    // A refused reading took bytes off the front: at most the limit, and one piece.
    ensures refused { IfErr result (λ _. TakesAtMost (S.left source.old) (S.left source.new) (limit + 65536)) }
    ensures within { IfOk result (λ v. vec_len v ≤ limit) }
    ensures fault { result ≡ Err ReadAllFault.ReadFault → Rose (S.faults source.old) (S.faults source.new) }
    ensures faults { S.faults source.old ≤ S.faults source.new }
    // A source that failed is told.
    ensures told { S.faults source.old < S.faults source.new → result ≡ Err ReadAllFault.ReadFault }
{
    let mut bytes = Vec::new(alloc);
    let mut piece = [0u8; 65536];
    let mut room = limit;
    'pieces: loop {
        match source.read(&mut piece) {
            ReadAnswer::Got(count) => {
                let count = count as u64;
                if count > room {
                    return Err(ReadAllFault::TooLong);
                }
                room -= count;
                bytes.extend_from_slice(&piece[..count as usize])?;
            }
            ReadAnswer::End => return Ok(bytes),
            ReadAnswer::Failed => return Err(ReadAllFault::ReadFault),
        }
    }
}
