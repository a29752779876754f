// The words that the body of an answer may say.
ghost use Rattle.std.specs.Prelude.{◌≡◌};
ghost use Rattle.http_words.specs.Words as words;

/// A word that the body of an answer may say.
#[derive(Clone, Copy, Debug, PartialEq, Eq)]
pub enum Word {
    /// The vote or descriptor was taken.
    Kept,
    /// It was taken in the place of an older one.
    Replaced,
    /// It is held already.
    Have,
    /// The head is bad, or says nothing clear of the body's length.
    Head,
    /// The body ended too early.
    Truncated,
    /// The body is no such document.
    Document,
    /// Of a vote: it is for another period.
    ValidAfter,
    /// Of a vote: its authority is not one of the roster.
    Authority,
    /// Of a vote: its fingerprint is not its identity's.
    Fingerprint,
    /// Of a vote: its certificate has expired.
    Expired,
    /// Of a vote: the certificate's signature does not hold.
    Certification,
    /// Of a vote: the certificate's signature by the signing key does not hold.
    Crosscert,
    /// Of a vote or descriptor: its signature does not hold.
    Signature,
    /// Of a descriptor: its identities are not one.
    Identity,
    /// Of a descriptor: its Ed25519 signatures do not hold.
    Ed25519,
    /// A newer one is held.
    Older,
    /// The time for it is over.
    Late,
    /// It is of another period.
    OtherPeriod,
    /// It is of a stranger.
    Stranger,
    /// There is no room for the vote.
    Full,
    /// There is no room for the descriptor.
    PoolFull,
    /// The pool has changed as often as it can be counted.
    PoolWorn,
    /// The authority's rules reject the relay.
    Rejected,
    /// There is no consensus yet that could be signed.
    NotComputed,
}

impl Word {
    /// The word's text.
    pub fn text(self) -> &'static [u8]
        ensures { result.now ≡ words.word_text self }
    {
        match self {
            Word::Kept => b"kept",
            Word::Replaced => b"replaced",
            Word::Have => b"have",
            Word::Head => b"head",
            Word::Truncated => b"truncated",
            Word::Document => b"document",
            Word::ValidAfter => b"valid-after",
            Word::Authority => b"authority",
            Word::Fingerprint => b"fingerprint",
            Word::Expired => b"expired",
            Word::Certification => b"certification",
            Word::Crosscert => b"crosscert",
            Word::Signature => b"signature",
            Word::Identity => b"identity",
            Word::Ed25519 => b"ed25519",
            Word::Older => b"older",
            Word::Late => b"late",
            Word::OtherPeriod => b"other-period",
            Word::Stranger => b"stranger",
            Word::Full => b"full",
            Word::PoolFull => b"pool-full",
            Word::PoolWorn => b"pool-worn",
            Word::Rejected => b"rejected",
            Word::NotComputed => b"not-computed",
        }
    }
}
