// A link over TCP: one connection for each exchange.
ghost use Rattle.std.specs.Prelude.{◌≡◌, ◌≤◌, None, ⊤};
ghost use Rattle.dir_http.specs.Links.{GotWithin};

use crate::deadline::Deadline;
use crate::timed::{TimedSink, TimedSource};
use dir_bytes::{ReadAllFault, WriteAll, read_all, write_all};
use dir_http::{Link, LinkAnswer, is_response};
use std::alloc::Global;
use std::io::{self, ErrorKind};
use std::net::{Net, OpenStream, SocketAddr, TcpStream};
use std::rt::Clock;
use std::str;
use std::time::Duration;

/// How long a connection may take to be made, and a read or a write to wait.
fn step() -> Duration {
    Duration::from_secs(5)
}

/// How long a request may take to be sent, and a response to come.
fn whole() -> Duration {
    Duration::from_secs(20)
}

/// How long a peer is left alone once it has failed, or sent no response.
fn rest() -> Duration {
    Duration::from_secs(30)
}

/// A peer that has failed, or sent no response, and how long it is left alone.
#[derive(Drop)]
struct Resting {
    peer: Vec<u8>,
    time: Deadline,
}

/// Whether an answer is no response: the link failed, or what came is too long or no whole response.
fn is_failure(answer: &LinkAnswer) -> bool {
    match answer {
        LinkAnswer::Got(bytes) => !is_response(bytes),
        LinkAnswer::TooLong | LinkAnswer::Fault => true,
        LinkAnswer::Memory => false,
    }
}

/// A link over TCP. It fails where the peer takes too long. A peer that took too long, or whose answer is no response, is
/// not asked for a while, in which the link fails at once: so one bad peer does not hold up what is asked of the others.
#[derive(Drop)]
pub struct TcpLink<'a, R> {
    runtime: &'a R,
    /// The peers that failed lately, or sent no response, the first of them first.
    resting: Vec<Resting>,
    faults: u64,
}

impl<'a, R: Net + Clock> TcpLink<'a, R> {
    /// A link that has not failed yet.
    pub fn new(alloc: Global, runtime: &'a R) -> TcpLink<'a, R> {
        TcpLink {
            runtime,
            resting: Vec::new(alloc),
            faults: 0,
        }
    }

    /// Whether a peer is left alone.
    fn rests(&self, peer: &[u8]) -> bool {
        for resting in &self.resting {
            if resting.peer.as_slice() == peer && !resting.time.is_over(self.runtime) {
                return true;
            }
        }
        false
    }

    /// Forgets the peers that have been left alone long enough.
    fn forget(&mut self)
        ensures { self.new.faults ≡ self.old.faults }
    {
        for _ in 0..self.resting.len() {
            match self.resting.first() {
                Some(first) if first.time.is_over(self.runtime) => drop(self.resting.remove(0)),
                _ => break,
            }
        }
    }

    /// Leaves a peer alone from now on, where there is memory to remember it.
    fn let_rest(&mut self, alloc: Global, peer: &[u8])
        ensures { self.new.faults ≡ self.old.faults }
    {
        self.forget();
        if let Ok(peer) = peer.to_vec(alloc) {
            let time = Deadline::new(self.runtime, rest());
            let _ = self.resting.push(Resting { peer, time });
        }
    }

    /// A connection to a peer, twice: to read and to write.
    fn open(&self, peer: &[u8]) -> io::Result<(R::Stream, R::Stream)> {
        let Ok(peer) = str::from_utf8(peer) else {
            return Err(io::Error::from(ErrorKind::InvalidInput));
        };
        let Ok(address) = peer.parse::<SocketAddr>() else {
            return Err(io::Error::from(ErrorKind::InvalidInput));
        };
        let stream = TcpStream::connect_timeout(self.runtime, &address, step())?;
        stream.set_read_timeout(Some(step()))?;
        stream.set_write_timeout(Some(step()))?;
        let output = stream.try_clone()?;
        Ok((stream, output))
    }

    /// What a peer sends, over a connection that is closed then.
    fn ask(&self, alloc: Global, peer: &[u8], request: &[u8], limit: u64) -> LinkAnswer
        ensures { GotWithin limit result }
    {
        let Ok((input, output)) = self.open(peer) else {
            return LinkAnswer::Fault;
        };
        let mut sink = TimedSink::new(self.runtime, Deadline::new(self.runtime, whole()), output);
        if write_all(&mut sink, request) != WriteAll::Done {
            return LinkAnswer::Fault;
        }
        let mut source = TimedSource::new(
            self.runtime,
            Deadline::new(self.runtime, whole()),
            input,
        );
        match read_all(alloc, &mut source, limit) {
            Ok(bytes) => LinkAnswer::Got(bytes),
            Err(ReadAllFault::TooLong) => LinkAnswer::TooLong,
            Err(ReadAllFault::ReadFault) => LinkAnswer::Fault,
            Err(ReadAllFault::Memory) => LinkAnswer::Memory,
        }
    }

    /// What a peer sends. One that fails, or sends no response, is left alone for a while.
    fn ask_once(&mut self, alloc: Global, peer: &[u8], request: &[u8], limit: u64) -> LinkAnswer
        ensures answer { GotWithin limit result }
        ensures faults { self.new.faults ≡ self.old.faults }
    {
        let answer = self.ask(alloc, peer, request, limit);
        if is_failure(&answer) {
            self.let_rest(alloc, peer);
        }
        answer
    }
}

impl<'a, R: Net + Clock> Link for TcpLink<'a, R> {
    ghost sends = { λ link peer request. None };

    ghost faults = { λ link. link.faults };

    ghost steps = { λ before peer request limit answer after. ⊤ };

    fn exchange(&mut self, alloc: Global, peer: &[u8], request: &[u8], limit: u64) -> LinkAnswer {
        let answer = if self.rests(peer) {
            LinkAnswer::Fault
        } else {
            self.ask_once(alloc, peer, request, limit)
        };
        if let LinkAnswer::Fault = &answer {
            self.faults = self.faults.saturating_add(1);
        }
        answer
    }
}
