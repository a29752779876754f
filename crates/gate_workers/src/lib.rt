//! Workers that serve the connections of gates, each its own, side by side.
#![tactic(auto)]

mod clerk;
mod running;
mod worker;

pub use clerk::Clerk;
pub use running::{Ran, run};
pub use worker::{End, Worker, serve_gate};
