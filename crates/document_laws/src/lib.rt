//! Which items are a document, by the tables of its kind (dir-spec, "Document meta-format"): laws that go both ways. No
//! functions; a crate of its own, so that a law more proves nothing else again. What a document is, by the tables of
//! its kind (dir-spec, "Document meta-format"): laws of every document that was read. What is known of a document while
//! its bytes arrive (dir-spec, "Document meta-format").
#![tactic(auto)]

mod feed_laws;
mod laws;
mod table_laws;

pub use feed_laws::all_is_open;
pub use laws::{documents_are_all, documents_are_read};
pub use table_laws::{items_are_said, rows_stand_as_often, sections_stand_in_order};
