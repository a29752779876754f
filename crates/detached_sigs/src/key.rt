// A key that may sign.
use dir_bytes::Text;
use dir_values::Fingerprint;

/// The signing key of an authority.
#[derive(Drop)]
pub struct SignerKey {
    /// The identity of the authority.
    pub authority: Fingerprint,
    /// The bytes of the key.
    pub key: Text,
}
