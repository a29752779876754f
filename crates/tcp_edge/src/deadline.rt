// When a connection's time is over.
use std::rt::Clock;
use std::time::{Duration, Instant};

/// The end of some time.
#[derive(Drop)]
pub(crate) struct Deadline {
    began: Option<Instant>,
    most: Duration,
}

impl Deadline {
    /// So long from now on.
    pub(crate) fn new<R: Clock>(runtime: &R, most: Duration) -> Deadline {
        Deadline {
            began: Instant::now(runtime).ok(),
            most,
        }
    }

    /// One that is over.
    pub(crate) fn past() -> Deadline {
        Deadline {
            began: None,
            most: Duration::from_secs(0),
        }
    }

    /// Whether the time is over, or cannot be told.
    pub(crate) fn is_over<R: Clock>(&self, runtime: &R) -> bool {
        match &self.began {
            Some(began) => match began.elapsed(runtime) {
                Ok(elapsed) => elapsed > self.most,
                Err(_) => true,
            },
            None => true,
        }
    }
}
