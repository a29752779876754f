//! Votes that are read while their bytes arrive (dir-spec, "Vote and consensus status document formats"). A vote is the
//! same wherever its bytes stand, and whatever follows them (dir-spec, "Vote and consensus status document formats").
//! No functions; a crate of its own, so that a law more proves nothing else again. A vote that was read ends there,
//! whatever follows it (dir-spec, "Vote and consensus status document formats").
#![tactic(auto)]

mod blanks;
mod fed;
mod feeder;
mod finishing;
mod intake;
mod laws;
mod machine;
mod taking;
mod whole_laws;

pub use blanks::{Blank, blank_after};
pub use fed::Fed;
pub use feeder::VoteFeeder;
pub use laws::{blank_lines_are_none, open_votes_are_none, votes_end};
pub use whole_laws::{faulty_votes_stand, votes_move, whole_votes_stand, whole_votes_stay};
