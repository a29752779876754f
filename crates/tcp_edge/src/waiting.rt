// A connection that was accepted and whose request has not arrived yet.
use crate::arrived::ArrivedSource;
use crate::deadline::Deadline;
use dir_http::missing;
use std::alloc::Global;
use std::io::{ErrorKind, Read};
use std::net::TcpStream;
use std::rt::Clock;

/// How often a connection is read before it is another's turn.
const READS: usize = 16;

/// How many bytes a connection may always hold: a head, and the body of a small document.
const SMALL: usize = 86016;

/// How a connection stands.
#[derive(Clone, Copy, Debug, PartialEq, Eq)]
pub(crate) enum Visit {
    /// Nothing has come.
    Waits,
    /// Something has come, and more is to.
    Came,
    /// It is to be handed over: its request has arrived, or its time is over.
    Ready,
    /// It failed, or its peer has asked nothing.
    Broken,
}

/// A connection whose request arrives.
#[derive(Drop)]
pub(crate) struct Waiting {
    stream: TcpStream,
    bytes: Vec<u8>,
    /// How many bytes at least are still to come.
    missing: u64,
    /// Whether the peer sends no more.
    ended: bool,
    /// Whether the connection failed.
    broken: bool,
    deadline: Deadline,
}

impl Waiting {
    /// A connection of which nothing was read.
    pub(crate) fn new(alloc: Global, stream: TcpStream, deadline: Deadline) -> Waiting {
        Waiting {
            stream,
            bytes: Vec::new(alloc),
            missing: 1,
            ended: false,
            broken: false,
            deadline,
        }
    }

    /// Keeps bytes that came.
    fn keep(&mut self, piece: &[u8]) {
        if self.bytes.extend_from_slice(piece).is_err() {
            self.broken = true;
            return;
        }
        self.missing = self.missing.saturating_sub(piece.len() as u64);
        if self.missing == 0 {
            self.missing = missing(&self.bytes);
        }
    }

    /// Reads what has come, and tells whether something has.
    fn read_on(&mut self, piece: &mut [u8]) -> bool {
        let mut moved = false;
        for _ in 0..READS {
            if self.is_settled() {
                break;
            }
            match self.stream.read(piece) {
                Ok(0) => self.ended = true,
                Ok(count) => match piece.get(..count) {
                    Some(came) => self.keep(came),
                    None => self.broken = true,
                },
                Err(error) => match error.kind() {
                    ErrorKind::WouldBlock => break,
                    ErrorKind::Interrupted => {}
                    _ => self.broken = true,
                },
            }
            moved = true;
        }
        moved
    }

    /// Whether no more is read: the request has arrived, or it will not.
    fn is_settled(&self) -> bool {
        self.missing == 0 || self.ended || self.broken
    }

    /// Reads what has come, and tells how the connection stands.
    pub(crate) fn visit<R: Clock>(&mut self, runtime: &R, piece: &mut [u8]) -> Visit {
        let moved = self.read_on(piece);
        if self.broken || (self.ended && self.bytes.is_empty()) {
            Visit::Broken
        } else if self.is_settled() || self.deadline.is_over(runtime) {
            Visit::Ready
        } else if moved {
            Visit::Came
        } else {
            Visit::Waits
        }
    }

    /// How many bytes it holds.
    pub(crate) fn held(&self) -> usize {
        self.bytes.len()
    }

    /// Whether it holds more than a connection may always hold.
    pub(crate) fn is_large(&self) -> bool {
        self.bytes.len() > SMALL
    }

    /// Its two ends: what has arrived, and the connection.
    pub(crate) fn into_ends(self) -> (ArrivedSource, TcpStream) {
        let ends = self.missing == 0 || self.ended;
        (ArrivedSource::new(self.bytes, ends), self.stream)
    }
}
