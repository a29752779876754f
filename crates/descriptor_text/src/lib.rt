//! The canonical text of a server descriptor, item by item.
#![tactic(auto)]

mod items;
mod lines;
mod writing;

pub use writing::write;
