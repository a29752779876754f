// A gate over TCP. Several share one listener, which the first call of `listen` binds.
ghost use Rattle.std.specs.Prelude.{◌≡◌, ◌≤◌, true, false};

use crate::arrived::ArrivedSource;
use crate::leaving::LeavingSink;
use crate::traffic::Traffic;
use dir_http::{Gate, GateAnswer, ListenAnswer};
use std::alloc::Global;
use std::io::{self, ErrorKind};
use std::net::{Net, TcpListener, TcpStream};
use std::rt::Clock;
use std::str;
use std::sync::OnceLock;
use std::time::Duration;

/// A gate over TCP.
///
/// It keeps what it accepts until the request has arrived, or the time for that is over, and only then gives the
/// connection: what a worker reads of it is there. What a peer has no room for of a response the gate sends later. It
/// answers `Idle` at its first call, and again once its period is over, also where connections come all the time. A
/// period begins with the call that follows an `Idle`, so what is done in between is no part of it.
#[derive(Drop)]
pub struct TcpGate<'a, R> {
    runtime: &'a R,
    listener: &'a OnceLock<TcpListener>,
    /// Whether it gives connections.
    serves: bool,
    traffic: Traffic<'a, R>,
    faults: u64,
    asked: bool,
    closed: bool,
}

impl<'a, R: Net<Listener = TcpListener, Stream = TcpStream> + Clock> TcpGate<'a, R> {
    /// A gate that was not called yet, gives connections, and answers `Idle` so often.
    pub fn serving(
        alloc: Global,
        runtime: &'a R,
        listener: &'a OnceLock<TcpListener>,
        period: Duration,
    ) -> TcpGate<'a, R> {
        TcpGate::new(alloc, runtime, listener, period, true)
    }

    /// A gate that was not called yet, and answers `Idle` so often. It listens and gives no connection, so that its worker
    /// is always free.
    pub fn idling(
        alloc: Global,
        runtime: &'a R,
        listener: &'a OnceLock<TcpListener>,
        period: Duration,
    ) -> TcpGate<'a, R> {
        TcpGate::new(alloc, runtime, listener, period, false)
    }

    /// A gate that was not called yet.
    fn new(
        alloc: Global,
        runtime: &'a R,
        listener: &'a OnceLock<TcpListener>,
        period: Duration,
        serves: bool,
    ) -> TcpGate<'a, R> {
        TcpGate {
            runtime,
            listener,
            serves,
            traffic: Traffic::new(alloc, runtime, period),
            faults: 0,
            asked: false,
            closed: false,
        }
    }

    /// Binds the listener, if none is bound.
    fn bind(&self, address: &[u8]) -> io::Result<()> {
        if self.listener.get().is_some() {
            return Ok(());
        }
        let Ok(address) = str::from_utf8(address) else {
            return Err(io::Error::from(ErrorKind::InvalidInput));
        };
        let listener = TcpListener::bind(self.runtime, address)?;
        listener.set_nonblocking(true)?;
        match self.listener.try_set(listener) {
            Ok(_) => Ok(()),
            Err(_) => Ok(()),
        }
    }
}

impl<'a, R: Net<Listener = TcpListener, Stream = TcpStream> + Clock> Gate for TcpGate<'a, R> {
    type In = ArrivedSource;

    type Out = LeavingSink;

    ghost asked = { λ g. g.asked };

    ghost closed = { λ g. g.closed };

    ghost faults = { λ g. g.faults };

    fn listen(&mut self, address: &[u8]) -> ListenAnswer {
        self.asked = true;
        self.closed = false;
        match self.bind(address) {
            Ok(()) => ListenAnswer::Listening,
            Err(_) => {
                self.faults = self.faults.saturating_add(1);
                ListenAnswer::Fault
            }
        }
    }

    fn next(&mut self) -> GateAnswer<ArrivedSource, LeavingSink> {
        self.asked = true;
        self.closed = false;
        let cell = self.listener;
        let Some(listener) = cell.get() else {
            self.faults = self.faults.saturating_add(1);
            return GateAnswer::Fault;
        };
        if !self.serves {
            self.traffic.wait();
            return GateAnswer::Idle;
        }
        match self.traffic.look(listener) {
            Some((input, output)) => GateAnswer::Connection(input, output),
            None => GateAnswer::Idle,
        }
    }
}
