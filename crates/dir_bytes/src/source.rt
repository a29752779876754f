// A source of bytes, with a count of its faults.
ghost use Rattle.std.specs.{Prelude.{◌<◌, List, ℕ, length}, declared.option.Option.Option};
ghost use Rattle.dir_bytes.specs.Streams.{GivesWithin, TakesFrom, CountsReads};

/// What a read answers.
#[derive(Clone, Copy, Debug, PartialEq, Eq)]
pub enum ReadAnswer {
    /// So many bytes were put at the front of the buffer.
    Got(usize),
    /// There are no more bytes.
    End,
    /// The source failed, and gave nothing.
    Failed,
}

/// A source of bytes.
pub trait Source {
    /// The bytes that are left, where the source tells.
    ghost left: { Self → Option (List ℕ) };

    /// How often the source has failed. The count stands still at the last `u64`.
    ghost faults: { Self → ℕ };

    /// Puts some bytes at the front of the buffer, at least one.
    fn read(&mut self, out: &mut [u8]) -> ReadAnswer
        requires { 0 < length out.old }
        ensures within { GivesWithin result (length out.new) }
        ensures bytes { TakesFrom (left self.old) (left self.new) result out.new }
        ensures cause { CountsReads (faults self.old) (faults self.new) result };
}
