//! The terms of the line grammar that all documents of the directory protocol share (dir-spec,
//! meta-format): the faults of a line or an object, and in `specs/` the definitions of lines,
//! items and objects that contracts cite.
#![tactic(auto)]

mod fault;
mod limits;

pub use fault::{DocFault, DocReason};
pub use limits::NO_LIMIT;
