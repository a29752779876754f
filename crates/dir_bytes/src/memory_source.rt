// A source in memory, which tells what it has left.
ghost use Rattle.std.specs.Prelude.{◌≡◌, ◌+◌, ◌≤◌, ◌<◌, Some, drop, length, slice_index, vec_len, EachIndex};
ghost use Rattle.dir_bytes.specs.Streams.{GivesWithin, TakesFrom, CountsReads, faults_after_read};

use crate::source::{ReadAnswer, Source};

/// A source over bytes in memory. A read gives at most the bytes up to the next place of `cuts`, and the reads whose
/// numbers, from 1, stand in `failing` fail.
#[derive(Drop)]
pub struct MemorySource {
    bytes: Vec<u8>,
    cuts: Vec<u64>,
    failing: Vec<u64>,
    place: usize,
    reads: u64,
    faults: u64,
    ghost within: { place ≤ vec_len bytes },
}

impl MemorySource {
    ghost use Rattle.dir_bytes.specs.Memories.{IsFreshSource};

    /// A source of which nothing was read.
    pub fn new(bytes: Vec<u8>, cuts: Vec<u64>, failing: Vec<u64>) -> MemorySource
        ensures { IsFreshSource bytes.items cuts.items failing.items result }
    {
        MemorySource {
            bytes,
            cuts,
            failing,
            place: 0,
            reads: 0,
            faults: 0,
        }
    }
}

// How many bytes may be given from the place on: not past the next cut.
fn room_before_cut(cuts: &[u64], place: u64, room: u64) -> u64
    ensures within { result ≤ room }
    ensures some { 0 < room → 0 < result }
    ensures cuts { EachIndex cuts.now (λ k. place < slice_index cuts.now k → place + result ≤ slice_index cuts.now k) }
{
    let mut room = room;
    for cut in cuts {
        if *cut > place {
            room = room.min(*cut - place);
        }
    }
    room
}

impl Source for MemorySource {
    ghost use Rattle.dir_bytes.specs.Memories.{bytes_left, FailsByNumber, StopsAtCuts, IsNextSource};

    ghost left = { λ s. Some (drop s.place s.bytes.items) };

    ghost faults = { λ s. s.faults };

    fn read(&mut self, out: &mut [u8]) -> ReadAnswer
        requires { 0 < length out.old }
        ensures within { GivesWithin result (length out.new) }
        ensures bytes { TakesFrom (Some (bytes_left self.old)) (Some (bytes_left self.new)) result out.new }
        ensures cause { CountsReads self.old.faults self.new.faults result }
        ensures fails { FailsByNumber self.old result }
        ensures cuts { StopsAtCuts self.old result }
        ensures counted { self.new.faults ≡ faults_after_read self.old.faults result }
        ensures next { IsNextSource self.old self.new }
    {
        self.reads = self.reads.saturating_add(1);
        if self.failing.contains(&self.reads) {
            self.faults = self.faults.saturating_add(1);
            return ReadAnswer::Failed;
        }
        let left = self.bytes.len() - self.place;
        if left == 0 {
            return ReadAnswer::End;
        }
        let room = left.min(out.len());
        let count = room_before_cut(&self.cuts, self.place as u64, room as u64) as usize;
        let start = self.place;
        out[..count].copy_from_slice(&self.bytes[start..start + count]);
        self.place = start + count;
        ReadAnswer::Got(count)
    }
}
