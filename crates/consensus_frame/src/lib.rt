//! A consensus of either flavour as a kind of document: its sections, the tables of their items, and what the items
//! say (dir-spec, "Vote and consensus status document formats").
#![tactic(auto)]

mod across;
mod frame;
mod line;
mod rows;
mod value;

pub use across::Across;
pub use frame::ConsensusFrame;
pub use rows::{ConsensusKind, ConsensusSection};
pub use value::ConsensusValue;
