// What the items of detached signatures say.
use dir_values::{Digest1, Fingerprint};
use frame_values::{Span, VoteSignature};

/// What an item of detached signatures says.
#[derive(Clone, Copy)]
pub enum DetachedKind {
    /// 40 hex digits.
    Digest,
    /// A date and a time of day.
    Time,
    /// A flavour, an algorithm, and a digest in hex, of any length.
    AdditionalDigest,
    /// A flavour, an algorithm, an identity, the digest of a signing key, and a signature as an object of any words.
    AdditionalSignature,
    /// An algorithm or none, an identity, the digest of a signing key, and a signature.
    Signature,
}

/// What an `additional-digest` line says.
#[derive(Clone, Copy)]
pub struct AdditionalDigestLine {
    /// The flavour of the consensus.
    pub flavour: Span,
    /// The algorithm of its digest.
    pub algorithm: Span,
    /// The digest, in hex.
    pub digest: Span,
}

/// What an `additional-signature` item says.
#[derive(Clone, Copy)]
pub struct AdditionalSignatureLine {
    /// The flavour of the consensus that is signed.
    pub flavour: Span,
    /// The algorithm of the digest that is signed.
    pub algorithm: Span,
    /// The identity of the authority that signed.
    pub identity: Fingerprint,
    /// The digest of its signing key.
    pub key_digest: Digest1,
    /// The lines of the signature.
    pub signature: Span,
}

/// What only items of detached signatures say.
#[derive(Clone, Copy)]
pub enum DetachedValue {
    /// The digest of the consensus of the ns flavour.
    Digest(Digest1),
    /// The digest of another flavour's consensus.
    AdditionalDigest(AdditionalDigestLine),
    /// A signature over another flavour's consensus.
    AdditionalSignature(AdditionalSignatureLine),
    /// A signature, and nothing where its algorithm is not known.
    Signature(Option<VoteSignature>),
}
