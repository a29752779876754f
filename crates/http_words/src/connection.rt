// What came of a connection, and how what came of its request is told.
ghost use Rattle.std.specs.Prelude.{◌≡◌, ◌≤◌};
ghost use Rattle.http_words.specs.Connections.{Tells, TriesShortage};

use crate::outcome::Outcome;
use dir_bytes::Sink;
use dir_http::{Response, WriteRefusal, write_response};
use std::alloc::Global;

/// What came of a connection.
#[derive(Clone, Copy, Debug, PartialEq, Eq)]
pub enum ConnStatus {
    /// A response with this code was written whole.
    Answered { code: u16 },
    /// The source failed, and nothing was done.
    ReadFault,
    /// The sink failed behind so many bytes of the response.
    WriteFault { sent: u64 },
    /// There was no memory. The response 500 was tried.
    Memory,
}

/// The code of the response that tells of want of memory.
const SHORTAGE: u16 = 500;

/// Tries to tell that there was no memory.
pub fn tell_shortage<K: Sink>(alloc: Global, sink: &mut K) -> ConnStatus
    ensures status { result ≡ ConnStatus.Memory }
    ensures tries { TriesShortage (K.written sink.old) (K.written sink.new) }
    ensures faults { K.faults sink.old ≤ K.faults sink.new }
{
    let response = Response {
        code: SHORTAGE,
        body: Vec::new(alloc),
    };
    let _ = write_response(alloc, sink, &response);
    ConnStatus::Memory
}

/// Writes what came of a request as a response. Want of memory is tried to be told, and is no answer.
pub fn tell<K: Sink>(alloc: Global, sink: &mut K, outcome: Outcome) -> ConnStatus
    ensures tells { Tells (K.written sink.old) (K.written sink.new)
        (K.faults sink.old) (K.faults sink.new) outcome result }
    ensures faults { K.faults sink.old ≤ K.faults sink.new }
{
    let code = outcome.code();
    if code == SHORTAGE {
        return tell_shortage(alloc, sink);
    }
    let Ok(response) = outcome.response(alloc) else {
        return tell_shortage(alloc, sink);
    };
    match write_response(alloc, sink, &response) {
        Ok(()) => ConnStatus::Answered { code },
        Err(WriteRefusal::WriteFault { sent }) => ConnStatus::WriteFault { sent },
        Err(WriteRefusal::Memory) => tell_shortage(alloc, sink),
    }
}
