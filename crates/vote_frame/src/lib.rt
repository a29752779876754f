//! A vote as a kind of document: its sections, the tables of their items, and what the items say (dir-spec, "Vote and consensus
//! status document formats").
#![tactic(auto)]

mod across;
mod frame;
mod value;

pub use across::Across;
pub use frame::{VoteFrame, VoteKind, VoteSection, VoteValue};
