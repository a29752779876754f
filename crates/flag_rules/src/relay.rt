// What is known of a relay.
ghost use Rattle.std.specs.Prelude.{◌≡◌};
ghost use Rattle.flag_rules.specs.Relays.{bandwidth_of};

use crate::ruling::Ruling;
use dir_values::Fingerprint;

/// What was measured of a relay. Moments are seconds since 1970-01-01 00:00:00 UTC.
#[derive(Clone, Copy, Debug, PartialEq, Eq)]
pub struct Measured {
    /// When it was last found reachable; 0 where it never was.
    pub reached_at: u64,
    /// Its weighted mean time between failures, in seconds.
    pub wmtbf: u64,
    /// Its weighted fractional uptime, in millionths.
    pub wfu_ppm: u32,
    /// For how many seconds it is known.
    pub known_for: u64,
    /// Its measured bandwidth, in kilobytes a second.
    pub kb: Option<u32>,
}

/// What is known of a relay when its flags are assigned.
#[derive(Clone, Copy, Debug, PartialEq, Eq)]
pub struct RelayFacts {
    pub identity: Fingerprint,
    /// When its descriptor was published.
    pub published: u64,
    /// Its IPv4 address.
    pub ip: u32,
    /// Its directory port; 0 where it has none.
    pub dir_port: u16,
    /// Whether it serves directory documents over its OR port.
    pub tunnelled: bool,
    pub hibernating: bool,
    /// For how many seconds it has been up, as it says.
    pub uptime: u64,
    /// The bandwidth that it says, in kilobytes a second.
    pub bandwidth_kb: u32,
    /// Whether the summary of its exit policy accepts ports 80 and 443.
    pub exit_web: bool,
    pub measured: Measured,
}

impl RelayFacts {
    /// The measured bandwidth, or else the one that the relay says, in kilobytes a second.
    pub fn bandwidth(&self) -> u32
        ensures { result ≡ bandwidth_of self.now }
    {
        self.measured.kb.unwrap_or(self.bandwidth_kb)
    }
}

/// A relay, and what is ruled of it.
#[derive(Clone, Copy, Debug)]
pub struct RuledRelay {
    pub facts: RelayFacts,
    pub ruling: Ruling,
}
