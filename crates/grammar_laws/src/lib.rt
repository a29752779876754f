//! Laws of the items of a document (dir-spec, meta-format): a document by its lines, and that items that were written
//! are read again. Nothing stands on this crate but other laws. Laws of a document's own part: it stands the same
//! behind other bytes, and alone (dir-spec, "Document meta-format"). No functions; a crate of its own, so that a law
//! more proves nothing else again.
#![tactic(auto)]

mod blocks;
mod laws;
mod part_laws;

pub use blocks::{faults_are_there, items_are_there, no_others_are};
pub use laws::{objects_are_read_again, reads_again, writers_write_items, written_items_are_read};
pub use part_laws::own_part_is_read_the_same;
