// The connections of a gate: those whose requests arrive, and those whose responses are sent.
use crate::arrived::ArrivedSource;
use crate::deadline::Deadline;
use crate::departures::Departures;
use crate::leaving::LeavingSink;
use crate::waiting::Waiting;
use crate::waiting_room::WaitingRoom;
use std::alloc::Global;
use std::io::ErrorKind;
use std::net::{TcpListener, TcpStream};
use std::rt::Clock;
use std::thread;
use std::time::Duration;

/// How often a gate looks for a request before it answers `Idle`, whatever the clock says.
const ROUNDS: u64 = 100000000;

/// How many connections a gate accepts at once, so that the gates which share a listener share what comes.
const ACCEPTED: usize = 8;

/// How long a request may take to arrive.
fn whole() -> Duration {
    Duration::from_secs(120)
}

/// How long a gate rests where nothing has come.
fn pause() -> Duration {
    Duration::from_millis(10)
}

/// The connections of a gate.
#[derive(Drop)]
pub(crate) struct Traffic<'a, R> {
    alloc: Global,
    runtime: &'a R,
    room: WaitingRoom,
    departures: Departures,
    /// How long connections are looked for before the gate answers `Idle`.
    period: Duration,
    /// When that is over, if it has begun.
    ends: Option<Deadline>,
}

impl<'a, R: Clock> Traffic<'a, R> {
    /// No connection yet. The first period is over.
    pub(crate) fn new(alloc: Global, runtime: &'a R, period: Duration) -> Traffic<'a, R> {
        Traffic {
            alloc,
            runtime,
            room: WaitingRoom::new(alloc),
            departures: Departures::new(alloc),
            period,
            ends: Some(Deadline::past()),
        }
    }

    /// Accepts what has come, and tells whether something has.
    fn accept(&mut self, listener: &TcpListener) -> bool {
        let mut moved = false;
        for _ in 0..ACCEPTED {
            match listener.accept() {
                Ok((stream, _)) => self.admit(stream),
                Err(error) => match error.kind() {
                    ErrorKind::WouldBlock => break,
                    // What came is gone, or the system has no room for it: the oldest makes room.
                    _ => {
                        self.room.let_go();
                        break;
                    }
                },
            }
            moved = true;
        }
        moved
    }

    /// Keeps a connection that was accepted.
    fn admit(&mut self, stream: TcpStream) {
        if stream.set_nonblocking(true).is_ok() {
            let deadline = Deadline::new(self.runtime, whole());
            self.room.admit(Waiting::new(self.alloc, stream, deadline));
        }
    }

    /// The two ends of a connection. None where there is no memory.
    fn open(&mut self, waiting: Waiting) -> Option<(ArrivedSource, LeavingSink)> {
        let (input, stream) = waiting.into_ends();
        match self.departures.outbox(self.alloc) {
            Some(outbox) => Some((input, LeavingSink::new(self.alloc, stream, outbox))),
            None => None,
        }
    }

    /// Whether no connection is looked for any more. A period begins with the first call after it was over.
    fn is_over(&mut self) -> bool {
        let ends = match self.ends.take() {
            Some(ends) => ends,
            None => Deadline::new(self.runtime, self.period),
        };
        if ends.is_over(self.runtime) {
            return true;
        }
        self.ends = Some(ends);
        false
    }

    /// Looks for a connection whose request has arrived, and sends meanwhile what is left of responses.
    pub(crate) fn look(&mut self, listener: &TcpListener) -> Option<(ArrivedSource, LeavingSink)> {
        let mut piece = [0u8; 16384];
        self.departures.collect(self.runtime);
        for _ in 0..ROUNDS {
            if self.is_over() {
                break;
            }
            if let Some(waiting) = self.room.next_ready(self.runtime, &mut piece) {
                return self.open(waiting);
            }
            let accepted = self.accept(listener);
            let sent = self.departures.go_on(self.runtime, &mut piece);
            let came = self.room.begin_round();
            if !accepted && !sent && !came {
                thread::sleep(self.runtime, pause());
            }
        }
        None
    }

    /// Waits until the period is over, and looks for none.
    pub(crate) fn wait(&mut self) {
        if self.ends.take().is_none() {
            thread::sleep(self.runtime, self.period);
        }
    }
}
