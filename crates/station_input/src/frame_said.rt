// What the items of a station input say.
use dir_values::Fingerprint;
use flag_rules::{Measured, OperatorRule};
use frame_values::{DirSource, Span};

/// What a `schedule` line says, in seconds.
#[derive(Clone, Copy)]
pub struct ScheduleLine {
    /// The interval between two consensuses.
    pub interval: u64,
    /// The time for exchanging votes.
    pub vote: u64,
    /// The time for exchanging signatures.
    pub dist: u64,
}

/// What an `authority` line says.
#[derive(Clone, Copy)]
pub struct MemberLine {
    /// The identity of the authority.
    pub identity: Fingerprint,
    /// Where it is reached, an IPv4 address and a port, if the line names that.
    pub peer: Option<Span>,
}

/// What a `measured` line says.
#[derive(Clone, Copy)]
pub struct MeasuredRelay {
    /// The identity of the relay.
    pub identity: Fingerprint,
    /// What was measured of it.
    pub measured: Measured,
}

/// What only items of a station input say.
#[derive(Clone, Copy)]
pub enum StationValue {
    /// Who the own authority is.
    Source(DirSource),
    /// When it votes.
    Schedule(ScheduleLine),
    /// An authority of its network.
    Member(MemberLine),
    /// What its operator rules of a relay.
    Rule(OperatorRule),
    /// What it measured of a relay.
    Measured(MeasuredRelay),
}
