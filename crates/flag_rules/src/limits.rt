// The numbers of the table of flags.

/// For how long after it was found reachable a relay counts as reached: 45 minutes, in seconds.
pub(crate) const REACHED_SECONDS: u64 = 2700;

/// How many of the reached relays of an address are no Sybils.
pub(crate) const MOST_AT_ADDRESS: usize = 2;

/// The age of a descriptor above which it is stale: 18 hours, in seconds.
pub(crate) const FRESH_SECONDS: u64 = 64_800;

/// The mean time between failures that is enough for Stable, whatever the others have: 7 days, in seconds.
pub(crate) const STABLE_SECONDS: u64 = 604_800;

/// The bandwidth that is enough for Fast, whatever the others have, in kilobytes a second.
pub(crate) const FAST_KILOBYTES: u64 = 100;

/// For how long a relay is known that is familiar, whatever the others are: 8 days, in seconds.
pub(crate) const FAMILIAR_SECONDS: u64 = 691_200;

/// The bandwidth that is enough for Guard, whatever the others have, in kilobytes a second.
pub(crate) const GUARD_KILOBYTES: u64 = 2_000;

/// The uptime that HSDir asks: 96 hours, in seconds.
pub(crate) const HS_DIR_SECONDS: u64 = 345_600;
