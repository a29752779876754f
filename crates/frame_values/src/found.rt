// Where texts stand, and what lines say that several kinds of document have.
use dir_values::{Algorithm, Digest1, Fingerprint};

/// Where a text stands: the places of its first byte and of the byte after its last, counted from
/// the input's first byte.
#[derive(Clone, Copy, Debug, PartialEq, Eq)]
pub struct Span {
    /// The place of its first byte.
    pub start: u64,
    /// The place after its last byte.
    pub end: u64,
}

/// Who an authority is, as its `dir-source` line says.
#[derive(Clone, Copy, Debug, PartialEq, Eq)]
pub struct DirSource {
    /// Its nickname.
    pub nickname: Span,
    /// Its identity.
    pub identity: Fingerprint,
    /// Its host name.
    pub address: Span,
    /// Its IPv4 address, the first byte highest.
    pub ip: u32,
    /// Its directory port.
    pub dir_port: u16,
    /// Its onion routing port.
    pub or_port: u16,
}

/// What a `directory-signature` item says.
#[derive(Clone, Copy, Debug, PartialEq, Eq)]
pub struct VoteSignature {
    /// The algorithm, where the line names one.
    pub algorithm: Option<Algorithm>,
    /// The identity of the authority that signed.
    pub identity: Fingerprint,
    /// The digest of its signing key.
    pub key_digest: Digest1,
    /// The lines of the signature.
    pub signature: Span,
}
