// How large a document may be.

/// More bytes than an input has.
pub const NO_LIMIT: u64 = 2_305_843_009_213_693_952;
