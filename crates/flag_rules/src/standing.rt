// A relay among others.
ghost use Rattle.std.specs.Prelude.{◌≡◌};
ghost use Rattle.flag_rules.specs.Standings as standings;

use crate::limits::REACHED_SECONDS;
use crate::relay::RelayFacts;
use crate::ruling::Ruling;

/// A relay, what is ruled of it, and whether it is one too many at its address.
#[derive(Clone, Copy, Debug)]
pub struct Standing {
    pub facts: RelayFacts,
    pub ruling: Ruling,
    pub sybil: bool,
}

/// Whether a relay was found reachable within 45 minutes, is awake and is not rejected.
pub(crate) fn is_reached(now: u64, facts: &RelayFacts, ruling: Ruling) -> bool
    ensures { result ≡ standings.is_reached now facts.now ruling }
{
    let reached_at = facts.measured.reached_at;
    reached_at != 0
        && reached_at <= now
        && now - reached_at <= REACHED_SECONDS
        && !facts.hibernating
        && !ruling.is_reject()
}

impl Standing {
    /// Whether the relay is Running.
    pub(crate) fn is_running(&self, now: u64) -> bool
        ensures { result ≡ standings.is_running now self.now }
    {
        is_reached(now, &self.facts, self.ruling) && !self.sybil
    }

    /// Whether the relay is Valid.
    pub(crate) fn is_valid(&self) -> bool
        ensures { result ≡ standings.is_valid self.now }
    {
        self.ruling.lets_valid() && !self.sybil
    }

    /// Whether the relay counts for the medians and eighths.
    pub(crate) fn is_active(&self, now: u64) -> bool
        ensures { result ≡ standings.is_active now self.now }
    {
        self.is_running(now) && self.is_valid()
    }
}
