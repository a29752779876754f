// Writing a text whole.
ghost use Rattle.dir_bytes.specs.Streams.{WritesAll};

use crate::sink::{Sink, WriteAnswer};

/// What `write_all` answers.
#[derive(Clone, Copy, Debug, PartialEq, Eq)]
pub enum WriteAll {
    /// All bytes were written.
    Done,
    /// The sink failed after so many bytes.
    Failed { sent: usize },
}

/// Writes all the bytes.
pub fn write_all<K: Sink>(sink: &mut K, bytes: &[u8]) -> WriteAll
    ensures { WritesAll (K.written sink.old) (K.written sink.new) (K.faults sink.old) (K.faults sink.new) bytes.now result }
{
    let mut sent = 0;
    'pieces: while sent < bytes.len() {
        match sink.write(&bytes[sent..]) {
            WriteAnswer::Took(count) => sent += count,
            WriteAnswer::Failed => return WriteAll::Failed { sent },
        }
    }
    WriteAll::Done
}
