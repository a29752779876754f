// A key service behind a Unix socket. Nothing is told of what it sends.
ghost use Rattle.std.specs.Prelude.{◌≡◌, None, ⊤};

use crate::dial::Dial;
use crate::service_end::ServiceEnd;
use std::net::Net;
use std::os::unix::net::UnixStream;
use std::rt::Clock;
use std::time::{Duration, Instant};

// How long a read or a write may wait.
fn step() -> Duration {
    Duration::from_secs(5)
}

// How long a service that was silent is not dialed.
fn rest() -> Duration {
    Duration::from_secs(1)
}

/// Dials the Unix socket that a path names. A read or a write over such a connection waits five seconds at most. Once
/// one has waited so long in vain, nothing is dialed for a second. The dial itself has no limit of time.
#[derive(Drop)]
pub struct UnixDial<R> {
    runtime: R,
    path: String,
    // When the service was silent last.
    silent: Option<Instant>,
}

impl<R: Net + Clock> UnixDial<R> {
    /// What dials the socket of this path.
    pub fn new(runtime: R, path: String) -> UnixDial<R>
        ensures runtime { result.runtime ≡ runtime }
        ensures path { result.path ≡ path }
        ensures silent { result.silent ≡ None }
    {
        UnixDial {
            runtime,
            path,
            silent: None,
        }
    }

    // Whether the service was silent within the last second.
    fn rests(&self) -> bool {
        match &self.silent {
            Some(silent) => match silent.elapsed(&self.runtime) {
                Ok(elapsed) => elapsed < rest(),
                Err(_) => false,
            },
            None => false,
        }
    }
}

impl<R: Net + Clock> Dial for UnixDial<R> {
    type In = ServiceEnd<UnixStream>;

    type Out = ServiceEnd<UnixStream>;

    ghost gives = { λ before connection after. ⊤ };

    ghost takes_back = { λ before failed after. ⊤ };

    fn dial(&mut self) -> Option<(ServiceEnd<UnixStream>, ServiceEnd<UnixStream>)> {
        if self.rests() {
            return None;
        }
        let input = UnixStream::connect(&self.runtime, self.path.as_str()).ok()?;
        input.set_read_timeout(Some(step())).ok()?;
        input.set_write_timeout(Some(step())).ok()?;
        let output = input.try_clone().ok()?;
        Some((ServiceEnd::new(input), ServiceEnd::new(output)))
    }

    fn take_back(&mut self, failed: (ServiceEnd<UnixStream>, ServiceEnd<UnixStream>))
        ensures { ⊤ }
    {
        let (source, sink) = failed;
        if source.is_silent() || sink.is_silent() {
            self.silent = Instant::now(&self.runtime).ok();
        }
    }
}
