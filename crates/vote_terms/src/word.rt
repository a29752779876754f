// Why a vote is not acceptable.

/// The clause that a vote fails; they are asked in this order.
#[derive(Clone, Copy, Debug, PartialEq, Eq)]
pub enum VoteWord {
    /// The vote is for another period: its `valid-after` is not the one wanted.
    ValidAfter,
    /// Its authority is not in the roster.
    Authority,
    /// The fingerprint of its certificate is not its authority's, or not the SHA-1 of the certificate's identity key.
    Fingerprint,
    /// Its certificate has expired when the period begins.
    Expired,
    /// The identity key's signature over its certificate was refused.
    Certification,
    /// The signing key's signature over the digest of the identity key was refused.
    Crosscert,
    /// Its signature is of another authority or key than its certificate's, or was refused.
    Signature,
}
