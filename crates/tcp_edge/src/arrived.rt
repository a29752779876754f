// A source over the bytes of a request that have arrived.
ghost use Rattle.std.specs.Prelude.{◌≡◌, ◌≤◌, ◌<◌, Some, length, drop};
ghost use Rattle.dir_bytes.specs.Streams.{GivesWithin, TakesFrom, CountsReads};

use dir_bytes::{ReadAnswer, Source};

/// A source over bytes that have arrived. Behind the last one it ends, where the peer sends no more, and else fails.
#[derive(Drop)]
pub struct ArrivedSource {
    bytes: Vec<u8>,
    place: usize,
    ends: bool,
    faults: u64,
}

impl ArrivedSource {
    /// A source over all of these bytes.
    pub(crate) fn new(bytes: Vec<u8>, ends: bool) -> ArrivedSource
        ensures left { ⟦<ArrivedSource as Source>⟧.left result ≡ Some bytes.items }
        ensures faults { ⟦<ArrivedSource as Source>⟧.faults result ≡ 0 }
    {
        ArrivedSource {
            bytes,
            place: 0,
            ends,
            faults: 0,
        }
    }

    /// The bytes that were not given yet.
    fn rest(&self) -> &[u8]
        ensures { result.now ≡ drop self.now.place self.now.bytes.items }
    {
        match self.bytes.get(self.place..) {
            Some(rest) => rest,
            None => b"",
        }
    }
}

impl Source for ArrivedSource {
    ghost left = { λ s. Some (drop s.place s.bytes.items) };

    ghost faults = { λ s. s.faults };

    fn read(&mut self, out: &mut [u8]) -> ReadAnswer {
        let rest = self.rest();
        let count = rest.len().min(out.len());
        if count > 0 {
            out[..count].copy_from_slice(&rest[..count]);
            self.place += count;
            return ReadAnswer::Got(count);
        }
        if self.ends {
            return ReadAnswer::End;
        }
        self.faults = self.faults.saturating_add(1);
        ReadAnswer::Failed
    }
}
