// How many entries a vote can have.
ghost use Rattle.std.specs.Prelude.{◌≡◌};
ghost use Rattle.vote_entries.specs.Room as room;

/// The bytes of the shortest entry: an `r` line with a name of one letter, the address 0.0.0.0 and ports of one digit, and
/// an `s` line without flags.
const SHORTEST_ENTRY: usize = 94;

/// How many entries a vote may have.
const MAX_ENTRIES: usize = 65_535;

/// How many entries so many bytes hold at most, so that room for what is kept of them is taken once, without a look at
/// the bytes. Room that is not used is not touched.
pub fn most_entries(bytes: usize) -> usize
    ensures { result ≡ room.most_entries bytes }
{
    (bytes / SHORTEST_ENTRY).min(MAX_ENTRIES)
}
