// Detached signatures, as values.
use consensus_terms::SignatureLine;
use dir_bytes::{Seq, Text};
use dir_values::Digest1;

/// The digest of a consensus of another flavour than ns.
#[derive(Drop)]
pub struct AdditionalDigest {
    /// The name of the flavour.
    pub flavour: Text,
    /// The name of the algorithm.
    pub algorithm: Text,
    /// The bytes of the digest.
    pub digest: Text,
}

/// A signature over a consensus, apart from it.
#[derive(Drop)]
pub struct DetachedLine {
    /// The name of the flavour that an `additional-signature` names; none of a `directory-signature`, which is of ns.
    pub flavour: Option<Text>,
    /// By whom it is signed, and the signature.
    pub line: SignatureLine,
}

/// Detached signatures: those of a consensus and of its other flavours, apart from their texts.
#[derive(Drop)]
pub struct Detached {
    /// The digest of the consensus of the ns flavour.
    pub ns: Digest1,
    /// When its period begins, in seconds since 1970-01-01 00:00:00 UTC.
    pub valid_after: u64,
    /// Until when it is fresh.
    pub fresh_until: u64,
    /// Until when it is valid.
    pub valid_until: u64,
    /// The digests of the other flavours, in the document's order.
    pub additional: Seq<AdditionalDigest>,
    /// The signatures, in the document's order.
    pub signatures: Seq<DetachedLine>,
}
