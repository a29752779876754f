// What a consensus says of a relay.
use dir_bytes::Text;
use dir_values::{Digest1, Digest2, Fingerprint, FlagSet};

/// The bandwidth of a relay.
#[derive(Clone, Copy, Debug, PartialEq, Eq)]
pub struct Bandwidth {
    /// In kilobytes per second.
    pub value: u32,
    /// Whether fewer than three votes measured it.
    pub unmeasured: bool,
}

/// What a consensus says of a relay (dir-spec, "Computing a consensus from a set of votes"). The texts are the rests of their
/// lines.
#[derive(Debug, Drop)]
pub struct Routerline {
    /// The nickname.
    pub nickname: Text,
    /// The RSA identity.
    pub identity: Fingerprint,
    /// The digest of its descriptor.
    pub digest: Digest1,
    /// When its descriptor was published, in seconds since 1970-01-01 00:00:00 UTC.
    pub published: u64,
    /// The IPv4 address, its first byte highest.
    pub ip: u32,
    /// The onion routing port.
    pub or_port: u16,
    /// The directory port.
    pub dir_port: u16,
    /// The further address, where there is one.
    pub a: Option<Text>,
    /// The SHA-256 of its microdescriptor, where there is one.
    pub m: Option<Digest2>,
    /// The flags.
    pub flags: FlagSet,
    /// The version, where there is one.
    pub v: Option<Text>,
    /// The subprotocols, where there are some.
    pub pr: Option<Text>,
    /// The bandwidth, where it is known.
    pub w: Option<Bandwidth>,
    /// The summary of its exit policy, where there is one.
    pub p: Option<Text>,
}
