// A clock, which counts how often it was asked.
ghost use Rattle.std.specs.Prelude.{◌≡◌, ◌≤◌, ℕ};
ghost use Rattle.dir_bytes.specs.Causes.{Counts, last_moment};

/// The last moment, 9999-12-31 23:59:59, in seconds since 1970-01-01 00:00:00 UTC.
pub const LAST_MOMENT: u64 = 253402300799;

/// A clock. Its moments are seconds since 1970-01-01 00:00:00 UTC, in no order.
pub trait Clock {
    /// The moment that was answered last.
    ghost last: { Self → ℕ };

    /// How often the clock was asked. The count stands still at the last `u64`.
    ghost asks: { Self → ℕ };

    /// The steps of a clock: from what it was, by the moment that it gave, to what it is.
    ghost steps: { Self → ℕ → Self → Type 0 };

    /// A moment, at most 9999-12-31 23:59:59.
    fn now(&mut self) -> u64
        ensures moment { result ≤ last_moment }
        ensures last { last self.new ≡ result }
        ensures asks { Counts (asks self.old) (asks self.new) }
        ensures step { steps self.old result self.new };
}
