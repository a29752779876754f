//! The command `report`: the votes and the consensus that the input is, and the health report of these.
#![tactic(auto)]

mod command;
mod line;
mod reading;
mod refusal;
mod told;

pub use command::report;
pub use refusal::{MomentText, NoReport, ReportRefusal};
