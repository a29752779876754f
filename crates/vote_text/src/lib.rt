//! The canonical text of a vote, item by item.
#![tactic(auto)]

mod entry;
mod lists;
mod made;
mod writing;

pub use made::write_signed;
pub use writing::write;
