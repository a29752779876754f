// A clock in memory, which gives the moments that it was made with.
ghost use Rattle.std.specs.Prelude.{◌≡◌, ◌≤◌, ◌<◌, vec_len};
ghost use Rattle.dir_bytes.specs.Causes.{Counts, last_moment};

use crate::clock::{Clock, LAST_MOMENT};

/// A clock that gives its moments in order, and then the last one again and again. A moment after the last of the
/// calendar, 9999-12-31 23:59:59, counts as that one.
#[derive(Drop)]
pub struct MemoryClock {
    moments: Vec<u64>,
    /// The moment that was answered last, 0 before the first call.
    pub last: u64,
    /// How often the clock was asked, at most the last `u64`.
    pub asks: u64,
    ghost some: { 0 < vec_len moments },
}

impl MemoryClock {
    ghost use Rattle.dir_bytes.specs.Memories.{moments_of};

    /// A clock that was not asked yet.
    pub fn new(moments: Vec<u64>) -> MemoryClock
        requires { 0 < vec_len moments }
        ensures moments { moments_of result ≡ moments.items }
        ensures last { result.last ≡ 0 }
        ensures asks { result.asks ≡ 0 }
    {
        MemoryClock {
            moments,
            last: 0,
            asks: 0,
        }
    }
}

impl Clock for MemoryClock {
    ghost use Rattle.dir_bytes.specs.Memories.{IsNextClock};

    ghost last = { λ s. s.last };

    ghost asks = { λ s. s.asks };

    ghost steps = { λ before moment after. IsNextClock before moment after };

    fn now(&mut self) -> u64
        ensures moment { result ≤ last_moment }
        ensures last { self.new.last ≡ result }
        ensures asks { Counts self.old.asks self.new.asks }
        ensures step { IsNextClock self.old result self.new }
    {
        let end = self.moments.len() as u64 - 1;
        let place = self.asks.min(end) as usize;
        self.asks = self.asks.saturating_add(1);
        self.last = self.moments[place].min(LAST_MOMENT);
        self.last
    }
}
