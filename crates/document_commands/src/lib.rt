//! The commands over one document: `check`, whether the input is one, and `show`, its canonical text.
#![tactic(auto)]

mod bandwidth;
mod cert;
mod commands;
mod consensus;
mod descriptor;
mod detached;
mod ends;
mod micro;
mod next_micro;
mod one;
mod refusal;
mod vote;

pub use commands::{check, show};
pub use refusal::SubjectRefusal;
