// What the items of an entry say.
use dir_values::{Digest1, Digest2, Fingerprint};
use frame_values::Span;

/// What an `r` line says.
#[derive(Clone, Copy, Debug, PartialEq, Eq)]
pub struct RelayLine {
    /// The relay's nickname.
    pub nickname: Span,
    /// Its RSA identity.
    pub identity: Fingerprint,
    /// The digest of its descriptor.
    pub digest: Digest1,
    /// When its descriptor was published, in seconds since 1970-01-01 00:00:00 UTC.
    pub published: u64,
    /// Its IPv4 address, the first byte highest.
    pub ip: u32,
    /// Its onion routing port.
    pub or_port: u16,
    /// Its directory port.
    pub dir_port: u16,
}

/// What a `w` line says, in kilobytes per second.
#[derive(Clone, Copy, Debug, PartialEq, Eq)]
pub struct Bandwidths {
    /// What the relay says of itself, where the line gives it.
    pub bandwidth: Option<u32>,
    /// What was measured, where the line gives it.
    pub measured: Option<u32>,
}

/// What an `m` line says.
#[derive(Clone, Copy, Debug, PartialEq, Eq)]
pub struct MicroLine {
    /// The consensus methods, with commas between them.
    pub methods: Span,
    /// The SHA-256 of the microdescriptor that is made under them, where the line gives it.
    pub digest: Option<Digest2>,
}

/// What an entry says of its relay's Ed25519 identity.
#[derive(Clone, Copy, Debug, PartialEq, Eq)]
pub enum EdOpinion {
    /// It is this key.
    Key([u8; 32]),
    /// The relay has none.
    None,
    /// Nothing: the entry has no such line.
    Absent,
}

/// What an item of an entry says, as its kind tells.
#[derive(Clone, Copy, Debug)]
pub enum EntryKind {
    /// Nickname, identity, digest, date, time of day, IPv4 address, ORPort, DirPort.
    Relay,
    /// One argument that ends with a colon and a port.
    Address,
    /// Flags, none of them twice.
    Flags,
    /// The rest of the line as it stands, which is read no further.
    Rest,
    /// `Bandwidth=` and `Measured=`, neither of them twice.
    Bandwidths,
    /// Methods with commas between them, and digests by their algorithms.
    Micro,
    /// `ed25519`, and a key or `none`.
    Ed,
}

/// What only items of an entry say.
#[derive(Clone, Copy, Debug, PartialEq, Eq)]
pub enum EntryValue {
    /// What an `r` line says.
    Relay(RelayLine),
    /// What a `w` line says.
    Bandwidths(Bandwidths),
    /// What an `m` line says.
    Micro(MicroLine),
    /// What an `id` line says.
    Ed(EdOpinion),
}
