// Where an entry stands.

/// The place of an entry among the votes that are held.
#[derive(Clone, Copy, Debug, PartialEq, Eq)]
pub struct Belong {
    /// The number of its vote, from 0.
    pub vote: usize,
    /// Its own number among the entries of the vote, from 0.
    pub entry: usize,
}
