// What the items of a server descriptor say.
use dir_values::PolicyItem;
use frame_values::Span;

/// What the `router` line says of a relay.
#[derive(Clone, Copy, Debug, PartialEq, Eq)]
pub struct RouterLine {
    /// Its nickname.
    pub nickname: Span,
    /// Its IPv4 address, the first byte highest.
    pub ip: u32,
    /// Its onion routing port.
    pub or_port: u16,
    /// Its SOCKS port.
    pub socks_port: u16,
    /// Its directory port.
    pub dir_port: u16,
}

/// What the `bandwidth` line says of a relay, in bytes a second.
#[derive(Clone, Copy, Debug, PartialEq, Eq)]
pub struct BandwidthLine {
    /// What it is willing to carry for long.
    pub average: u64,
    /// What it is willing to carry for a short time.
    pub burst: u64,
    /// What it has been seen to carry.
    pub observed: u64,
}

/// What an item of a server descriptor says.
#[derive(Clone, Copy, Debug)]
pub enum DescriptorKind {
    /// A nickname, an IPv4 address and three ports.
    Router,
    /// An Ed25519 certificate, as an object.
    Certificate,
    /// An Ed25519 key: 32 bytes in base64.
    Key,
    /// The rest of the line as it stands, which is read no further.
    Rest,
    /// A date and a time of day.
    Time,
    /// An identity in ten groups of four hex digits.
    Fingerprint,
    /// A number of seconds below 2 ^ 64.
    Uptime,
    /// Three numbers of bytes a second, each below 2 ^ 64.
    Bandwidth,
    /// `0` or `1`.
    Hibernating,
    /// A key, as an object of any words.
    Object,
    /// A key of 32 bytes in base64, of which one `=` may stand at the end.
    PaddedKey,
    /// An item of the exit policy, by whether it accepts.
    Policy(bool),
    /// A summary of ports.
    Ports,
    /// An address that ends with a colon and a port.
    Address,
    /// Nothing: its arguments are ignored.
    Nothing,
    /// An Ed25519 signature: 64 bytes in base64.
    EdSignature,
    /// A signature, as an object.
    Signature,
}

/// What only items of a server descriptor say.
#[derive(Clone, Copy, Debug)]
pub enum DescriptorValue {
    /// The relay.
    Router(RouterLine),
    /// A key of 32 bytes.
    Key([u8; 32]),
    /// A number of seconds.
    Uptime(u64),
    /// What it can carry.
    Bandwidth(BandwidthLine),
    /// Whether it rests.
    Hibernating(bool),
    /// An item of its exit policy.
    Policy(PolicyItem),
    /// An Ed25519 signature.
    EdSignature([u8; 64]),
}
