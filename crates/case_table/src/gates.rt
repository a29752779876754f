// Gates of a case, whose responses are seen behind the run.
ghost use Rattle.std.specs.Prelude.{None};

use crate::worker::Connection;
use dir_bytes::{MemorySource, ReadAnswer, Sink, Source, WriteAnswer};
use dir_http::{GateAnswer, MemoryGate};
use std::alloc::{AllocError, Global};
use std::collections::VecDeque;
use std::sync::OnceLock;
use std::thread;

/// What was written on a connection, once it is over.
pub type Answer = OnceLock<Vec<u8>>;

/// A gate of a case.
pub type CaseGate<'a> = MemoryGate<RequestSource<'a>, ResponseSink<'a>>;

/// How often a source looks for the response that it waits for.
const LOOKS: u64 = 10_000_000;

/// A source of a request. Behind its first read it fails unless another connection's response was written, for which it
/// waits a while.
#[derive(Drop)]
pub struct RequestSource<'a> {
    bytes: MemorySource,
    after: Option<&'a Answer>,
    begun: bool,
    faults: u64,
}

impl<'a> RequestSource<'a> {
    // Whether the response that it waits for was written, after a while.
    fn may_go_on(&self) -> bool {
        let Some(after) = self.after else {
            return true;
        };
        for _ in 0..LOOKS {
            if after.get().is_some() {
                return true;
            }
            thread::yield_now();
        }
        false
    }
}

impl<'a> Source for RequestSource<'a> {
    ghost left = { λ _. None };

    ghost faults = { λ s. s.faults };

    fn read(&mut self, out: &mut [u8]) -> ReadAnswer {
        if self.begun && !self.may_go_on() {
            self.faults = self.faults.saturating_add(1);
            return ReadAnswer::Failed;
        }
        self.begun = true;
        let answer = self.bytes.read(out);
        if let ReadAnswer::Failed = answer {
            self.faults = self.faults.saturating_add(1);
        }
        answer
    }
}

/// A sink of a response, which is told when the sink is dropped.
pub struct ResponseSink<'a> {
    written: Vec<u8>,
    answer: &'a Answer,
    faults: u64,
}

impl<'a> Drop for ResponseSink<'a> {
    fn drop(self) {
        let ResponseSink {
            written,
            answer,
            faults: _,
        } = self;
        let _ = answer.try_set(written);
    }
}

impl<'a> Sink for ResponseSink<'a> {
    ghost written = { λ _. None };

    ghost faults = { λ s. s.faults };

    fn write(&mut self, bytes: &[u8]) -> WriteAnswer {
        match self.written.extend_from_slice(bytes) {
            Ok(()) => WriteAnswer::Took(bytes.len()),
            Err(_) => {
                self.faults = self.faults.saturating_add(1);
                WriteAnswer::Failed
            }
        }
    }
}

// What a gate gives for a connection. It fails where the connection has no place for its response.
fn connection<'a>(
    alloc: Global,
    connection: Connection,
    answers: &'a [Answer],
) -> GateAnswer<RequestSource<'a>, ResponseSink<'a>> {
    let Some(answer) = answers.get(connection.number) else {
        return GateAnswer::Fault;
    };
    let after = match connection.after {
        Some(number) => answers.get(number),
        None => None,
    };
    let source = RequestSource {
        bytes: MemorySource::new(connection.request, connection.cuts, Vec::new(alloc)),
        after,
        begun: false,
        faults: 0,
    };
    let sink = ResponseSink {
        written: Vec::new(alloc),
        answer,
        faults: 0,
    };
    GateAnswer::Connection(source, sink)
}

/// A gate that gives connections, each of which writes its response to its place, and none in a while between them.
pub fn gate<'a>(
    alloc: Global,
    gives: Vec<Option<Connection>>,
    failing: Vec<u64>,
    answers: &'a [Answer],
) -> Result<CaseGate<'a>, AllocError> {
    let mut given = VecDeque::new(alloc);
    for give in gives {
        given.push_back(match give {
            Some(given) => connection(alloc, given, answers),
            None => GateAnswer::Idle,
        })?;
    }
    Ok(MemoryGate::new(given, failing))
}
