//! The directory authority's daemon and tool: the words, the input, the text that is written, and the status.
#![tactic(auto)]

mod arriving;
mod outside;
mod program;
mod serving;
mod telling;
mod texts;

pub use exit_status::{Refusal, Status};
pub use outside::Stands;
pub use program::run;
pub use serve_command::Outside;
