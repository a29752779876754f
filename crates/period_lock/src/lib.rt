//! A lock whose value stands for one list of entries, and passes that know what they have seen of it.
#![tactic(auto)]

mod closing;
mod lock;
mod moves;
mod opening;
mod pass;
mod rule;
mod steps;
mod storied;

pub use lock::Shared;
pub use pass::Pass;
pub use storied::{Event, Storied};
