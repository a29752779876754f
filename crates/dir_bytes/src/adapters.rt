// A source, a sink and a clock over those of std. They tell nothing of content.
ghost use Rattle.std.specs.Prelude.{◌≡◌, ◌≤◌, ◌<◌, None, length};
ghost use Rattle.dir_bytes.specs.{Causes.{Counts, last_moment, next_count}, Streams.{GivesWithin, TakesFrom}};
ghost use Rattle.dir_bytes.specs.Streams.{CountsReads, faults_after_read, TakesWithin, AddsTo, CountsWrites};
ghost use Rattle.dir_bytes.specs.Streams.{faults_after_write};

use crate::clock::{Clock, LAST_MOMENT};
use crate::sink::{Sink, WriteAnswer};
use crate::source::{ReadAnswer, Source};
use std::io::{Read, Write};
use std::time::{SystemTime, UNIX_EPOCH};

/// A source over a reader of std, for which a read of no bytes is the end.
#[derive(Drop)]
pub struct StdSource<R> {
    inner: R,
    faults: u64,
}

impl<R: Read> StdSource<R> {
    /// A source that has not failed yet.
    pub fn new(inner: R) -> StdSource<R>
        ensures { ⟦<StdSource<R> as Source>⟧.faults result ≡ 0 }
    {
        StdSource { inner, faults: 0 }
    }
}

impl<R: Read> Source for StdSource<R> {
    ghost left = { λ _. None };

    ghost faults = { λ s. s.faults };

    fn read(&mut self, out: &mut [u8]) -> ReadAnswer
        requires { 0 < length out.old }
        ensures within { GivesWithin result (length out.new) }
        ensures bytes { TakesFrom None None result out.new }
        ensures cause { CountsReads self.old.faults self.new.faults result }
        ensures counted { self.new.faults ≡ faults_after_read self.old.faults result }
    {
        match self.inner.read(out) {
            Ok(0) => ReadAnswer::End,
            Ok(count) => ReadAnswer::Got(count),
            Err(_) => {
                self.faults = self.faults.saturating_add(1);
                ReadAnswer::Failed
            }
        }
    }
}

/// A sink over a writer of std, for which a write of no bytes is a failure.
#[derive(Drop)]
pub struct StdSink<W> {
    inner: W,
    faults: u64,
}

impl<W: Write> StdSink<W> {
    /// A sink that has not failed yet.
    pub fn new(inner: W) -> StdSink<W>
        ensures { ⟦<StdSink<W> as Sink>⟧.faults result ≡ 0 }
    {
        StdSink { inner, faults: 0 }
    }
}

impl<W: Write> Sink for StdSink<W> {
    ghost written = { λ _. None };

    ghost faults = { λ s. s.faults };

    fn write(&mut self, bytes: &[u8]) -> WriteAnswer
        requires { 0 < length bytes.now }
        ensures within { TakesWithin result (length bytes.now) }
        ensures bytes { AddsTo None None result bytes.now }
        ensures cause { CountsWrites self.old.faults self.new.faults result }
        ensures counted { self.new.faults ≡ faults_after_write self.old.faults result }
    {
        match self.inner.write(bytes) {
            Ok(count) if count > 0 => WriteAnswer::Took(count),
            _ => {
                self.faults = self.faults.saturating_add(1);
                WriteAnswer::Failed
            }
        }
    }
}

/// The system's clock. Where the system gives no moment, it gives its last answer again, and 0 before the first.
#[derive(Drop)]
pub struct SystemClock<R> {
    runtime: R,
    last: u64,
    asks: u64,
    ghost moment: { last ≤ last_moment },
}

impl<R: std::rt::Clock> SystemClock<R> {
    /// A clock that was not asked yet.
    pub fn new(runtime: R) -> SystemClock<R>
        ensures last { ⟦<SystemClock<R> as Clock>⟧.last result ≡ 0 }
        ensures asks { ⟦<SystemClock<R> as Clock>⟧.asks result ≡ 0 }
    {
        SystemClock {
            runtime,
            last: 0,
            asks: 0,
        }
    }

    // The system's moment, if it gives one.
    fn moment(&self) -> Option<u64> {
        let time = SystemTime::now(&self.runtime).ok()?;
        let since = time.duration_since(UNIX_EPOCH).ok()?;
        Some(since.as_secs())
    }
}

impl<R: std::rt::Clock> Clock for SystemClock<R> {
    ghost last = { λ s. s.last };

    ghost asks = { λ s. s.asks };

    ghost steps = { λ before moment after. (moment ≡ after.last) × (after.asks ≡ next_count before.asks) };

    fn now(&mut self) -> u64
        ensures moment { result ≤ last_moment }
        ensures last { self.new.last ≡ result }
        ensures asks { Counts self.old.asks self.new.asks }
        ensures step { (result ≡ self.new.last) × (self.new.asks ≡ next_count self.old.asks) }
    {
        self.asks = self.asks.saturating_add(1);
        if let Some(moment) = self.moment() {
            if moment <= LAST_MOMENT {
                self.last = moment;
            }
        }
        self.last
    }
}
