// The connections whose responses a gate still sends, the oldest first.
use crate::deadline::Deadline;
use crate::leaving::{Leaving, Outbox};
use std::alloc::Global;
use std::rt::Clock;
use std::sync::{Arc, OnceLock};
use std::time::Duration;

/// How many connections there may be. The oldest goes where one more comes.
const LEAVING: usize = 256;

/// How many bytes they may hold together. The oldest goes where more come.
const HELD: usize = 134217728;

/// How long a response may take to be sent.
fn whole() -> Duration {
    Duration::from_secs(120)
}

/// The connections that leave.
#[derive(Drop)]
pub(crate) struct Departures {
    leaving: Vec<Leaving>,
    /// Where the connection that was given last is left.
    outbox: Option<Arc<Outbox, Global>>,
}

impl Departures {
    /// None yet.
    pub(crate) fn new(alloc: Global) -> Departures {
        Departures {
            leaving: Vec::new(alloc),
            outbox: None,
        }
    }

    /// Lets the oldest go.
    fn let_go(&mut self) {
        if !self.leaving.is_empty() {
            drop(self.leaving.remove(0));
        }
    }

    /// How many bytes they hold.
    fn held(&self) -> usize {
        let mut held = 0usize;
        for leaving in &self.leaving {
            held = held.saturating_add(leaving.held());
        }
        held
    }

    /// Takes over the connection that was given last, once its sink is gone.
    pub(crate) fn collect<R: Clock>(&mut self, runtime: &R) {
        let Some(outbox) = self.outbox.take() else {
            return;
        };
        let Ok(outbox) = Arc::try_unwrap(outbox) else {
            return;
        };
        let Some(rest) = outbox.into_inner() else {
            return;
        };
        if self.leaving.len() >= LEAVING {
            self.let_go();
        }
        let leaving = Leaving::new(rest, Deadline::new(runtime, whole()));
        let _ = self.leaving.push(leaving);
        for _ in 0..LEAVING {
            if self.held() <= HELD {
                break;
            }
            self.let_go();
        }
    }

    /// Where the next connection is to be left.
    pub(crate) fn outbox(&mut self, alloc: Global) -> Option<Arc<Outbox, Global>> {
        let Ok(outbox) = Arc::new(alloc, OnceLock::new()) else {
            return None;
        };
        self.outbox = Arc::try_clone(&outbox).ok();
        Some(outbox)
    }

    /// Sends on, and tells whether something was sent.
    pub(crate) fn go_on<R: Clock>(&mut self, runtime: &R, piece: &mut [u8]) -> bool {
        let mut moved = false;
        for leaving in &mut self.leaving {
            if leaving.go_on(runtime, piece) {
                moved = true;
            }
        }
        self.leaving.retain(|leaving| !leaving.is_done());
        moved
    }
}
