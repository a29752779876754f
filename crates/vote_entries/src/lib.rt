//! What is kept of the entries of a vote, and what these say of their relays (dir-spec, "Vote and consensus status document
//! formats").
#![tactic(auto)]

mod counting;
mod entry;
mod facts;
mod row;
mod rows;
mod said;

pub use counting::most_entries;
pub use entry::Entry;
pub use facts::set_of;
pub use row::{EntryRow, KeptMicro, Run};
pub use rows::Rows;
