// A sink in memory, which tells what was written.
ghost use Rattle.std.specs.Prelude.{◌≡◌, ◌<◌, Some, length};
ghost use Rattle.dir_bytes.specs.Streams.{TakesWithin, AddsTo, CountsWrites, faults_after_write};

use crate::sink::{Sink, WriteAnswer};

/// A sink in memory. A write takes at most `piece` bytes and at most the room that `written` has, and takes no memory.
/// The writes whose numbers, from 1, stand in `failing` fail, and so does each for which there is no room.
#[derive(Drop)]
pub struct MemorySink {
    /// The bytes that were written, behind those that it was made with.
    pub written: Vec<u8>,
    piece: u64,
    failing: Vec<u64>,
    writes: u64,
    faults: u64,
    ghost some: { 0 < piece },
}

impl MemorySink {
    ghost use Rattle.dir_bytes.specs.Memories.{IsFreshSink};

    /// A sink to which nothing was written, beyond these bytes.
    pub fn new(written: Vec<u8>, piece: u64, failing: Vec<u64>) -> MemorySink
        requires { 0 < piece }
        ensures vec { result.written ≡ written }
        ensures fresh { IsFreshSink written.items piece failing.items result }
    {
        MemorySink {
            written,
            piece,
            failing,
            writes: 0,
            faults: 0,
        }
    }
}

impl Sink for MemorySink {
    ghost use Rattle.dir_bytes.specs.Memories.{TakesAsTold, IsNextSink};

    ghost written = { λ s. Some s.written.items };

    ghost faults = { λ s. s.faults };

    fn write(&mut self, bytes: &[u8]) -> WriteAnswer
        requires { 0 < length bytes.now }
        ensures within { TakesWithin result (length bytes.now) }
        ensures bytes { AddsTo (Some self.old.written.items) (Some self.new.written.items) result bytes.now }
        ensures cause { CountsWrites self.old.faults self.new.faults result }
        ensures takes { TakesAsTold self.old bytes.now result }
        ensures counted { self.new.faults ≡ faults_after_write self.old.faults result }
        ensures next { IsNextSink self.old self.new }
    {
        self.writes = self.writes.saturating_add(1);
        let room = self.written.capacity() - self.written.len();
        if self.failing.contains(&self.writes) || room == 0 {
            self.faults = self.faults.saturating_add(1);
            return WriteAnswer::Failed;
        }
        let most = room.min(bytes.len());
        let count = self.piece.min(most as u64) as usize;
        match self.written.extend_from_slice(&bytes[..count]) {
            Ok(()) => WriteAnswer::Took(count),
            Err(_) => {
                self.faults = self.faults.saturating_add(1);
                WriteAnswer::Failed
            }
        }
    }
}
