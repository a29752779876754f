//! The words of the program: which command they give, with which options; and why a call of a command gives nothing.
#![tactic(auto)]

mod command;
mod command_line;
mod keys;
mod making;
mod newest;
mod rehearsal;
mod report;
mod serving;
mod stop;
mod values;

pub use command::{Command, Compute, Flavours, Kind, Measures, Subject, command_of};
pub use command_line::needed_option;
pub use keys::{Keys, keys_of};
pub use making::MakeVote;
pub use rehearsal::Rehearse;
pub use report::Report;
pub use serving::{Serve, is_address};
pub use stop::{DocumentRefusal, Stop, of_kind};
pub use values::read_roster;
