//! Laws of what is read: its values are in range, and its items may be written, but for the limits
//! (dir-spec, "Creating key certificates", "Vote and consensus status document formats"). No
//! functions; a crate of its own, so that a law more proves nothing else again.
#![tactic(auto)]

mod laws;

pub use laws::{
    certificates_read_are_in_range, certificates_within_limits_are_in_range,
    votes_read_are_in_range, votes_within_limits_are_in_range,
};
