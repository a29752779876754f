//! Laws of what is read of a consensus: it is in range, and it is read again where it is written (dir-spec, "Vote and
//! consensus status document formats"). No functions; a crate of its own, so that a law more proves nothing else again.
#![tactic(auto)]

mod laws;

pub use laws::{consensuses_read_are_in_range, read_consensuses_are_read_again};
