// The items of a relay's exit policy.

/// The addresses that an item of a policy speaks of. What it says of IPv6 addresses is not kept.
#[derive(Clone, Copy, Debug, PartialEq, Eq)]
pub enum Net {
    /// Every address.
    Star,
    /// The IPv4 addresses whose first `bits` bits are those of `address`, of which the others do not count.
    V4 { address: u32, bits: u8 },
    /// IPv6 addresses.
    V6,
}

/// An item of a policy: whether connections to these addresses are accepted, at the ports from a low to a high one
/// (dir-spec, the `accept` and `reject` lines of a server descriptor).
#[derive(Clone, Copy, Debug, PartialEq, Eq)]
pub struct PolicyItem {
    pub accept: bool,
    pub net: Net,
    pub low: u16,
    pub high: u16,
}
