// What an entry of a vote says of its relay, as values.
use dir_bytes::{Seq, Text};
use dir_values::{Digest1, Digest2, Fingerprint, FlagSet};
use relay_entries::{Bandwidths, EdOpinion};

/// What an `m` line says that gives a SHA-256.
#[derive(Debug, Drop)]
pub struct MicroFacts {
    /// The consensus methods, in the order in which the line names them.
    pub methods: Seq<u32>,
    /// The SHA-256 of the microdescriptor that is made under them.
    pub digest: Digest2,
}

/// What an entry of a vote says of its relay (dir-spec, "Vote and consensus status document formats"): a field for each item.
/// The texts are the rests of their lines.
#[derive(Debug, Drop)]
pub struct EntryFacts {
    /// The relay's nickname.
    pub nickname: Text,
    /// Its RSA identity.
    pub identity: Fingerprint,
    /// The digest of its descriptor.
    pub digest: Digest1,
    /// When its descriptor was published, in seconds since 1970-01-01 00:00:00 UTC.
    pub published: u64,
    /// Its IPv4 address, the first byte highest.
    pub ip: u32,
    /// Its onion routing port.
    pub or_port: u16,
    /// Its directory port.
    pub dir_port: u16,
    /// Its further addresses, each of an `a` line, in their order.
    pub addresses: Seq<Text>,
    /// The flags that the authority gives it.
    pub flags: FlagSet,
    /// The text of the `v` line, where there is one.
    pub version: Option<Text>,
    /// The text of the `pr` line, where there is one.
    pub protocols: Option<Text>,
    /// What the `w` line says, where there is one.
    pub bandwidths: Option<Bandwidths>,
    /// The text of the `p` line, where there is one.
    pub policy: Option<Text>,
    /// Its `m` lines that give a SHA-256, in their order. One that gives digests of other algorithms alone has no say.
    pub micros: Seq<MicroFacts>,
    /// What it says of the relay's Ed25519 identity.
    pub ed: EdOpinion,
}
