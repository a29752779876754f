// What comes to an authority.
use period_terms::Via;

/// What comes to an authority, where `A` is a vote and `B` a signature, each checked before.
#[derive(Drop)]
pub enum Coming<A, B> {
    /// A vote comes this way at a moment.
    Vote { vote: A, via: Via, now: u64 },
    /// The clock is at a moment.
    Moment { now: u64 },
    /// A signature comes.
    Signature { signature: B },
}
