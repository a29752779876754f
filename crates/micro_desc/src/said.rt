// What the items of a microdescriptor say.
use dir_values::Fingerprint;
use frame_values::Span;

/// Whose microdescriptor it is, as its `id` line says.
#[derive(Clone, Copy, Debug, PartialEq, Eq)]
pub enum MicroId {
    /// The relay's Ed25519 identity key.
    Ed25519([u8; 32]),
    /// Its RSA identity.
    Rsa1024(Fingerprint),
}

/// What an item of a microdescriptor says.
#[derive(Clone, Copy, Debug)]
pub enum MicroKind {
    /// A key, as an object of any words, which may be left out.
    OnionKey,
    /// A key of 32 bytes in base64.
    Key,
    /// The rest of the line as it stands, which is read no further.
    Rest,
    /// A kind of key, and an identity.
    Id,
}

/// What only items of a microdescriptor say.
#[derive(Clone, Copy, Debug)]
pub enum MicroValue {
    /// Where the lines of the relay's RSA onion key stand, where it is there.
    OnionKey(Option<Span>),
    /// A key of 32 bytes.
    Key([u8; 32]),
    /// Whose microdescriptor it is.
    Id(MicroId),
}
