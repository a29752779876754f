//! Calls at several authorities that exchange what they will, and their laws. Nothing that runs stands on them. Whole
//! lists of what comes to an authority: an authority begins, and each thing that comes is answered in turn.
#![tactic(auto)]

mod calling;
mod coming;
mod receiving;
mod starting;
mod world_calls;

pub use calling::take_among;
pub use coming::Coming;
pub use receiving::{take, take_all};
pub use starting::begin;
pub use world_calls::{begun_are_worlds, calls_are_worlds, period_states_take_all};
