// How far an authority is in its period.

/// How far an authority is in its period.
#[derive(Clone, Copy)]
pub enum Stage {
    /// Votes are taken.
    Voting,
    /// No vote is taken any more, and nothing is computed.
    Frozen,
    /// The consensus is computed, and the authority has not signed.
    Computed,
    /// The authority has signed, where it holds its own vote. Signatures are taken.
    Signed,
    /// The period ended: a consensus was published, or there is none.
    Ended,
}
