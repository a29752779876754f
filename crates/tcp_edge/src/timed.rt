// A source and a sink over a connection that may last a limited time. They tell nothing of content.
ghost use Rattle.std.specs.Prelude.{◌≡◌, ◌≤◌, ◌<◌, None, length};
ghost use Rattle.dir_bytes.specs.Streams.{GivesWithin, TakesFrom, CountsReads, TakesWithin, AddsTo, CountsWrites};

use crate::deadline::Deadline;
use dir_bytes::{ReadAnswer, Sink, Source, WriteAnswer};
use std::io::{Read, Write};
use std::rt::Clock;

/// A source over a connection. It fails once the time is over.
#[derive(Drop)]
pub(crate) struct TimedSource<'a, R, T> {
    runtime: &'a R,
    deadline: Deadline,
    inner: T,
    faults: u64,
}

impl<'a, R: Clock, T: Read> TimedSource<'a, R, T> {
    /// A source that has not failed yet.
    pub(crate) fn new(runtime: &'a R, deadline: Deadline, inner: T) -> TimedSource<'a, R, T> {
        TimedSource {
            runtime,
            deadline,
            inner,
            faults: 0,
        }
    }
}

impl<'a, R: Clock, T: Read> Source for TimedSource<'a, R, T> {
    ghost left = { λ _. None };

    ghost faults = { λ s. s.faults };

    fn read(&mut self, out: &mut [u8]) -> ReadAnswer {
        if self.deadline.is_over(self.runtime) {
            self.faults = self.faults.saturating_add(1);
            return ReadAnswer::Failed;
        }
        match self.inner.read(out) {
            Ok(0) => ReadAnswer::End,
            Ok(count) => ReadAnswer::Got(count),
            Err(_) => {
                self.faults = self.faults.saturating_add(1);
                ReadAnswer::Failed
            }
        }
    }
}

/// A sink over a connection. It fails once the time is over.
#[derive(Drop)]
pub(crate) struct TimedSink<'a, R, T> {
    runtime: &'a R,
    deadline: Deadline,
    inner: T,
    faults: u64,
}

impl<'a, R: Clock, T: Write> TimedSink<'a, R, T> {
    /// A sink that has not failed yet.
    pub(crate) fn new(runtime: &'a R, deadline: Deadline, inner: T) -> TimedSink<'a, R, T> {
        TimedSink {
            runtime,
            deadline,
            inner,
            faults: 0,
        }
    }
}

impl<'a, R: Clock, T: Write> Sink for TimedSink<'a, R, T> {
    ghost written = { λ _. None };

    ghost faults = { λ s. s.faults };

    fn write(&mut self, bytes: &[u8]) -> WriteAnswer {
        if self.deadline.is_over(self.runtime) {
            self.faults = self.faults.saturating_add(1);
            return WriteAnswer::Failed;
        }
        match self.inner.write(bytes) {
            Ok(count) if count > 0 => WriteAnswer::Took(count),
            _ => {
                self.faults = self.faults.saturating_add(1);
                WriteAnswer::Failed
            }
        }
    }
}
