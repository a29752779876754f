//! Computing a consensus: in `specs/` the definitions that lead from the votes that are held to the record of the consensus.
#![tactic(auto)]

mod belong;
mod identity;
mod laws;

pub use belong::Belong;
pub use identity::{EdPart, Identity};
pub use laws::{agreed_randoms_are_listed, knows_flags, pairs_are_alone, randoms_are_alone};
