//! What the params and the relays of a consensus decide of bandwidth: the limit of one that is not measured, and the weights.
#![tactic(auto)]

mod class;
mod class_sums;
mod limits;
mod weighing;

pub use class::Class;
pub use limits::unmeasured_limit;
pub use weighing::relay_weights;
