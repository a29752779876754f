// What feeding a piece of a vote gives.

/// What is known of a vote when a piece of it was fed.
#[derive(Clone, Copy, Debug, PartialEq, Eq)]
pub enum Fed {
    /// Every byte of the piece was taken, and the vote is neither whole nor faulty.
    All,
    /// The vote is whole.
    Whole {
        /// With how many bytes of the piece.
        taken: usize,
    },
    /// The vote is faulty, whatever follows.
    Fault {
        /// With how many bytes of the piece.
        taken: usize,
    },
}
