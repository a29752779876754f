// The options of making a vote.
use crate::command::Measures;
use count_terms::Newest;

/// What a vote is made with.
#[derive(Clone, Copy, Debug, PartialEq, Eq)]
pub struct MakeVote {
    /// Where the measured bandwidths of relays come from.
    pub bandwidths: Measures,
    /// The newest consensus method that the authority knows.
    pub newest: Newest,
}
