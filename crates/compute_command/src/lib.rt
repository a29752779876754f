//! The command `compute`: the votes that the input is, which of them are held, and the text of their consensus.
#![tactic(auto)]

mod accepting;
mod arriving;
mod beyond;
mod checking;
mod consensus;
mod from_source;
mod halt;
mod most_votes;
mod refusal;
mod rest;
mod tail;

pub use accepting::accept;
pub use from_source::compute_from;
pub use halt::Halt;
pub use refusal::{AcceptRefusal, ComputeRefusal, VoteListRefusal};
