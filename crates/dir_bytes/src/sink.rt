// A sink of bytes, with a count of its faults.
ghost use Rattle.std.specs.{Prelude.{◌<◌, List, ℕ, length}, declared.option.Option.Option};
ghost use Rattle.dir_bytes.specs.Streams.{TakesWithin, AddsTo, CountsWrites};

/// What a write answers.
#[derive(Clone, Copy, Debug, PartialEq, Eq)]
pub enum WriteAnswer {
    /// So many bytes were taken off the front.
    Took(usize),
    /// The sink failed, and took nothing.
    Failed,
}

/// A sink of bytes.
pub trait Sink {
    /// The bytes that were written, where the sink tells.
    ghost written: { Self → Option (List ℕ) };

    /// How often the sink has failed. The count stands still at the last `u64`.
    ghost faults: { Self → ℕ };

    /// Takes some bytes off the front, at least one.
    fn write(&mut self, bytes: &[u8]) -> WriteAnswer
        requires { 0 < length bytes.now }
        ensures within { TakesWithin result (length bytes.now) }
        ensures bytes { AddsTo (written self.old) (written self.new) result bytes.now }
        ensures cause { CountsWrites (faults self.old) (faults self.new) result };
}
