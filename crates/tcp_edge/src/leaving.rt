// Responses that are sent as fast as their peers read.
ghost use Rattle.std.specs.Prelude.{◌≡◌, ◌≤◌, ◌<◌, IfSome, None, length};
ghost use Rattle.dir_bytes.specs.Streams.{TakesWithin, AddsTo, CountsWrites};

use crate::deadline::Deadline;
use dir_bytes::{Sink, WriteAnswer};
use std::alloc::Global;
use std::io::{ErrorKind, Read, Write};
use std::net::{Shutdown, TcpStream};
use std::rt::Clock;
use std::sync::{Arc, OnceLock};
use std::time::Duration;

/// How often a connection is written before it is another's turn.
const WRITES: usize = 16;

/// How long a peer has to close its side once all was sent.
fn close_time() -> Duration {
    Duration::from_secs(10)
}

/// A connection and what is still to be sent over it.
#[derive(Drop)]
pub(crate) struct Rest {
    stream: TcpStream,
    bytes: Vec<u8>,
}

impl Rest {
    /// How many of the bytes the connection takes at once, if it has not failed.
    fn send(&mut self, bytes: &[u8]) -> Option<usize> {
        if !self.bytes.is_empty() {
            return Some(0);
        }
        match self.stream.write(bytes) {
            Ok(0) => None,
            Ok(count) => Some(count),
            Err(error) => match error.kind() {
                ErrorKind::WouldBlock | ErrorKind::Interrupted => Some(0),
                _ => None,
            },
        }
    }

    /// How many of the bytes are sent, or kept to be sent later. None where the connection failed, or there is no memory.
    fn take(&mut self, bytes: &[u8]) -> Option<usize>
        requires { 0 < length bytes.now }
        ensures { IfSome result (λ count. (0 < count) × (count ≤ length bytes.now)) }
    {
        let count = self.send(bytes)?;
        if 0 < count && count <= bytes.len() {
            return Some(count);
        }
        match self.bytes.extend_from_slice(bytes) {
            Ok(()) => Some(bytes.len()),
            Err(_) => None,
        }
    }
}

/// Where a sink leaves its connection when it is dropped.
pub(crate) type Outbox = OnceLock<Rest>;

/// A sink over a connection that does not wait: what the peer has no room for yet is kept, and the gate sends it later.
pub struct LeavingSink {
    rest: Rest,
    outbox: Arc<Outbox, Global>,
    faults: u64,
}

impl LeavingSink {
    /// A sink that was not written to, over a connection that does not block.
    pub(crate) fn new(
        alloc: Global,
        stream: TcpStream,
        outbox: Arc<Outbox, Global>,
    ) -> LeavingSink {
        LeavingSink {
            rest: Rest {
                stream,
                bytes: Vec::new(alloc),
            },
            outbox,
            faults: 0,
        }
    }
}

impl Drop for LeavingSink {
    fn drop(self) {
        let LeavingSink {
            rest,
            outbox,
            faults: _,
        } = self;
        let _ = outbox.try_set(rest);
        drop(outbox);
    }
}

impl Sink for LeavingSink {
    ghost written = { λ _. None };

    ghost faults = { λ s. s.faults };

    fn write(&mut self, bytes: &[u8]) -> WriteAnswer {
        match self.rest.take(bytes) {
            Some(count) => WriteAnswer::Took(count),
            None => {
                self.faults = self.faults.saturating_add(1);
                WriteAnswer::Failed
            }
        }
    }
}

/// A connection whose response is being sent, or was.
#[derive(Drop)]
pub(crate) struct Leaving {
    rest: Rest,
    sent: usize,
    /// Whether all was sent, and the peer was told so.
    closing: bool,
    /// Whether nothing is left to be done.
    done: bool,
    deadline: Deadline,
}

impl Leaving {
    /// A connection over which the rest is sent.
    pub(crate) fn new(rest: Rest, deadline: Deadline) -> Leaving {
        Leaving {
            rest,
            sent: 0,
            closing: false,
            done: false,
            deadline,
        }
    }

    /// Sends a piece, and tells whether the connection can take more.
    fn send_piece(&mut self) -> bool {
        let Some(piece) = self.rest.bytes.get(self.sent..) else {
            self.done = true;
            return false;
        };
        if piece.is_empty() {
            self.closing = self.rest.stream.shutdown(Shutdown::Write).is_ok();
            self.done = !self.closing;
            return false;
        }
        match self.rest.stream.write(piece) {
            Ok(count) => {
                self.sent = self.sent.saturating_add(count);
                true
            }
            Err(error) => match error.kind() {
                ErrorKind::WouldBlock => false,
                ErrorKind::Interrupted => true,
                _ => {
                    self.done = true;
                    false
                }
            },
        }
    }

    /// Passes over what the peer still sends, and tells whether it has more.
    fn pass_over(&mut self, piece: &mut [u8]) -> bool {
        match self.rest.stream.read(piece) {
            Ok(0) => {
                self.done = true;
                false
            }
            Ok(_) => true,
            Err(error) => match error.kind() {
                ErrorKind::WouldBlock => false,
                ErrorKind::Interrupted => true,
                _ => {
                    self.done = true;
                    false
                }
            },
        }
    }

    /// Sends on, and tells whether something was sent.
    pub(crate) fn go_on<R: Clock>(&mut self, runtime: &R, piece: &mut [u8]) -> bool {
        let was_closing = self.closing;
        let mut moved = false;
        for _ in 0..WRITES {
            let more = if self.closing {
                self.pass_over(piece)
            } else {
                self.send_piece()
            };
            if !more {
                break;
            }
            moved = true;
        }
        if self.closing && !was_closing {
            self.deadline = Deadline::new(runtime, close_time());
        }
        if self.deadline.is_over(runtime) {
            self.done = true;
        }
        moved
    }

    /// Whether nothing is left to be done.
    pub(crate) fn is_done(&self) -> bool {
        self.done
    }

    /// How many bytes it holds.
    pub(crate) fn held(&self) -> usize {
        self.rest.bytes.len()
    }
}
