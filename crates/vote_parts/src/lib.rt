//! The own part of a vote is that vote (dir-spec, "Vote and consensus status document formats"). No functions; a crate
//! of its own, so that a law more proves nothing else again. The first fault of a vote stands within its bytes
//! (dir-spec, "Document meta-format").
#![tactic(auto)]

mod fault_laws;
mod laws;

pub use fault_laws::vote_faults_stand_within;
pub use laws::{own_votes_are_read, placed_votes_are_read};
