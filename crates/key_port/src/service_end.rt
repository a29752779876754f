// One end of a connection with a key service, which notes whether the service was silent. It tells nothing of content.
ghost use Rattle.std.specs.Prelude.{◌≡◌, ◌≤◌, ◌<◌, None, length};
ghost use Rattle.dir_bytes.specs.{Causes.Counts, Streams.{AddsTo, CountsReads, CountsWrites, GivesWithin, TakesFrom}};
ghost use Rattle.dir_bytes.specs.Streams.{TakesWithin};

use dir_bytes::{ReadAnswer, Sink, Source, WriteAnswer};
use std::io::{self, ErrorKind, Read, Write};

/// One end of a connection with a key service. A read or a write fails too where its time is over.
#[derive(Drop)]
pub struct ServiceEnd<T> {
    inner: T,
    faults: u64,
    is_silent: bool,
}

impl<T> ServiceEnd<T> {
    // An end that has not failed yet.
    pub(crate) fn new(inner: T) -> ServiceEnd<T> {
        ServiceEnd {
            inner,
            faults: 0,
            is_silent: false,
        }
    }

    // Whether the last failure was one of time.
    pub(crate) fn is_silent(&self) -> bool {
        self.is_silent
    }

    // Counts a failure.
    fn fail(&mut self, is_silent: bool)
        ensures { Counts self.old.faults self.new.faults }
    {
        self.is_silent = is_silent;
        self.faults = self.faults.saturating_add(1);
    }
}

// Whether a read or a write failed since its time was over.
fn is_late(error: &io::Error) -> bool {
    error.kind() == ErrorKind::WouldBlock
}

impl<T: Read> Source for ServiceEnd<T> {
    ghost left = { λ _. None };

    ghost faults = { λ s. s.faults };

    fn read(&mut self, out: &mut [u8]) -> ReadAnswer {
        match self.inner.read(out) {
            Ok(0) => ReadAnswer::End,
            Ok(count) => ReadAnswer::Got(count),
            Err(error) => {
                self.fail(is_late(&error));
                ReadAnswer::Failed
            }
        }
    }
}

impl<T: Write> Sink for ServiceEnd<T> {
    ghost written = { λ _. None };

    ghost faults = { λ s. s.faults };

    fn write(&mut self, bytes: &[u8]) -> WriteAnswer {
        match self.inner.write(bytes) {
            Ok(0) => {
                self.fail(false);
                WriteAnswer::Failed
            }
            Ok(count) => WriteAnswer::Took(count),
            Err(error) => {
                self.fail(is_late(&error));
                WriteAnswer::Failed
            }
        }
    }
}
