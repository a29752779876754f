// What is kept of a change.
use crate::short_bytes::ShortBytes;
use dir_values::Fingerprint;

/// What an event changed.
#[derive(Clone, Copy)]
pub enum ChangeKind {
    /// A vote was kept.
    Vote,
    /// No vote is taken any more.
    Freeze,
    /// The consensus was computed.
    Compute,
    /// There were too few votes.
    NoConsensus,
    /// The authority signed.
    Sign,
    /// The authority holds no vote of its own, and did not sign.
    NoOwnVote,
    /// A signature was kept.
    Signature,
    /// A consensus was published.
    Publish,
    /// There were too few signatures.
    Miss,
    /// The next period began.
    Begin,
}

/// The short form of a change.
#[derive(Drop)]
pub struct Change {
    /// What was changed.
    pub kind: ChangeKind,
    /// Whose vote or signature it is, where it is one's.
    pub authority: Option<Fingerprint>,
    /// When the vote was published; of any other change when the period begins that it is of, and of a begin the new one.
    pub published: u64,
    /// The digests that it names: of a vote that of its rank, of others those of the texts, of ns first.
    pub digest: ShortBytes,
}
