//! The items of a document whose bytes arrive piece by piece (dir-spec, meta-format).
#![tactic(auto)]

mod feeder;
mod laws;

pub use feeder::{Feeder, item_at};
pub use laws::limit_is_enough;
