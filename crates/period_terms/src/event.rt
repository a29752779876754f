// What comes to an authority.
use crate::short_bytes::ShortBytes;
use crate::signature::OfferedSignature;
use crate::vote::OfferedVote;
use dir_bytes::Text;

/// How a vote came.
#[derive(Clone, Copy)]
pub enum Via {
    /// It was uploaded.
    Upload,
    /// It was fetched.
    Fetched,
    /// It is the authority's own.
    Own,
}

/// What the signer gave an authority that was to sign, and what the verifier said of it. Where nothing is to be signed it tells
/// nothing.
#[derive(Drop)]
pub enum Signing {
    /// The signatures of the ns and of the microdesc digest.
    Given { ns: Text, microdesc: Text },
    /// The signer failed.
    SignerFails,
    /// The verifier failed.
    VerifierFails,
    /// The signature over this digest was refused.
    Refused { digest: ShortBytes },
}

/// What comes to an authority, with all that it was given.
#[derive(Drop)]
pub enum Event {
    /// A vote is offered at a moment.
    Offered {
        vote: OfferedVote,
        via: Via,
        now: u64,
    },
    /// The clock is at a moment.
    Advanced {
        now: u64,
        given: Signing,
    },
    /// A signature is offered.
    SignedIn {
        signature: OfferedSignature,
    },
    /// The authority is read.
    Read,
}
