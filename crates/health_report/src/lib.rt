//! The health report of a period: which authority misses what, by the held votes and the consensus.
#![tactic(auto)]

mod fault;
mod identity_set;
mod lines;
mod members;
mod opinion;
mod opinions;
mod params;
mod relay;
mod relays;
mod reporting;
mod signing;

pub use fault::ReportFault;
pub use opinion::Opinion;
pub use reporting::report;
