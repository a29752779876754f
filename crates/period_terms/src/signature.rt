// A signature of a consensus that is offered.
use consensus_terms::Flavour;
use dir_bytes::Text;
use dir_values::{Digest1, Fingerprint};

/// A signature that was read and checked: by this key, over this digest.
#[derive(Drop)]
pub struct OfferedSignature {
    /// Who signed.
    pub authority: Fingerprint,
    /// The signing key that it was checked with.
    pub key: Text,
    /// The digest of that key.
    pub key_digest: Digest1,
    /// The flavour of what was signed.
    pub flavour: Flavour,
    /// When the period begins that it is for.
    pub valid_after: u64,
    /// The digest that was signed.
    pub digest: Text,
    /// The signature.
    pub signature: Text,
}
