// The identities that a consensus includes.
use dir_values::Fingerprint;

/// The Ed25519 part of an identity (dir-spec, "Computing a consensus from a set of votes").
#[derive(Clone, Copy, Debug, PartialEq, Eq)]
pub enum EdPart {
    /// This key.
    Key([u8; 32]),
    /// The relay has no key: `none`.
    NoKey,
    /// The votes agree on no part: the RSA identity stands alone.
    Bare,
}

/// An identity that a consensus includes.
#[derive(Clone, Copy, Debug, PartialEq, Eq)]
pub struct Identity {
    /// The RSA identity.
    pub rsa: Fingerprint,
    /// The Ed25519 part.
    pub ed: EdPart,
}
