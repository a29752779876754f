// What an authority answers.
use crate::short_bytes::ShortBytes;
use dir_values::Fingerprint;
use vote_terms::Rank;

/// What an offered vote is answered.
#[derive(Clone, Copy)]
pub enum Offer {
    /// The vote is for another period than this one.
    OtherPeriod { valid_after: u64 },
    /// The roster has no such authority.
    Stranger { authority: Fingerprint },
    /// No vote is taken any more, or none that comes this way from this moment on.
    Late { now: u64, cutoff: u64, frozen: bool },
    /// A vote of this rank is held, which is this vote's too.
    Have { held: Rank },
    /// A vote of this greater rank is held.
    Older { held: Rank },
    /// The period has as many changes of votes as it may have.
    Full,
    /// The vote is held now, where none was. The change has this number.
    Kept { position: u64 },
    /// The vote is held now, in place of one of this smaller rank. The change has this number.
    Replaced { position: u64, old: Rank },
}

/// What a moment is answered.
#[derive(Drop)]
pub enum Advance {
    /// There is nothing to do.
    Nothing,
    /// No vote is taken any more.
    Frozen,
    /// The consensus is computed.
    Computed,
    /// The votes are not of more than half of the roster.
    NoConsensus {
        held: u64,
        roster: u32,
    },
    /// The authority holds no vote of its own, and did not sign.
    NoOwnVote,
    /// The authority signed.
    Signed,
    /// These flavours are published.
    Published {
        ns: bool,
        microdesc: bool,
    },
    /// So few signed, of so many.
    Missed {
        ns: u32,
        microdesc: u32,
        roster: u32,
    },
    /// The next period began.
    Began {
        valid_after: u64,
    },
    /// There is no next period.
    EndOfTime,
    /// The signer failed.
    SignerFault,
    /// The verifier failed.
    VerifierFault,
    /// The verifier refused the authority's own signature over this digest.
    OwnSignatureRefused {
        digest: ShortBytes,
    },
}

/// What an offered signature is answered.
#[derive(Drop)]
pub enum SignIn {
    /// The signature is for another period than this one.
    OtherPeriod { valid_after: u64 },
    /// Nothing is computed.
    NotComputed,
    /// The signature is over another digest than this one.
    OtherDigest { ours: ShortBytes },
    /// No held vote has this authority and key.
    Stranger { authority: Fingerprint },
    /// A signature of this authority and flavour is held.
    Have,
    /// The period ended.
    Closed,
    /// The signature is held now. The change has this number.
    Kept { position: u64 },
}

/// What an event is answered. What a reading gives is no part of it.
#[derive(Drop)]
pub enum Answer {
    /// An offered vote.
    Vote(Offer),
    /// A moment.
    Moment(Advance),
    /// An offered signature.
    Signature(SignIn),
    /// A reading.
    Reading,
}
