//! The command `serve`: reads what a station is given, and serves as its authority until its gates are closed.
#![tactic(auto)]

mod beginning;
mod laws;
mod ready;
mod refusal;
mod serving;
mod starting;
mod station;
mod told;

pub use laws::such_inputs_are_not_refused;
pub use refusal::ServeRefusal;
pub use serve_work::{Outside, Served};
pub use serving::serve_station;
