//! How relays are weighted by position: the weights of a consensus's `bandwidth-weights` line.
#![tactic(auto)]

mod cases;
mod checks;
mod fraction;
mod position_weights;
mod shares;
mod sums;
mod table;

pub use checks::stated_weights;
pub use position_weights::Weights;
pub use sums::Sums;
pub use table::weights;
