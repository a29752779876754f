// How large a vote may be.

/// How many bytes a vote may have.
pub const MAX_VOTE: u64 = 16_777_216;
