// Bandwidth files as their content.
ghost use Rattle.std.specs.Prelude.{◌≡◌, ◌↔◌, IsTrue};
ghost use Rattle.bandwidth_file.specs.{Ages.IsOld, Relays.bandwidth_in};

use crate::relays::Relays;
use dir_bytes::{Seq, Text};
use dir_values::Fingerprint;

/// A header: what stands before the first `=` of its line, and what stands behind it.
#[derive(Debug, Drop)]
pub struct Header {
    pub key: Text,
    pub value: Text,
}

/// How old a file may be that is voted on, in seconds: three days.
const MAX_AGE: u64 = 259_200;

/// What a bandwidth file says.
#[derive(Drop)]
pub struct BandFile {
    /// The time of measuring, in seconds since 1970-01-01 00:00:00 UTC.
    pub timestamp: u64,
    /// The headers, in their order.
    pub headers: Seq<Header>,
    /// The measured bandwidths of relays, in kilobytes per second.
    pub relays: Relays,
}

impl BandFile {
    /// The measured bandwidth of a relay, if the file gives one. It is found by halves.
    pub fn get(&self, identity: &Fingerprint) -> Option<u32>
        ensures { result ≡ bandwidth_in self.now.relays identity.now }
    {
        self.relays.get(identity)
    }

    /// Whether the file is too old to be voted on at this moment: more than three days.
    pub fn is_old(&self, now: u64) -> bool
        ensures { IsTrue result ↔ IsOld self.now now }
    {
        match self.timestamp.checked_add(MAX_AGE) {
            Some(last) => last < now,
            None => false,
        }
    }
}
