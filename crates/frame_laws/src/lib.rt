//! Laws of the sections of documents: what is written row by row of a section's table is read again,
//! whatever the tables of the document are. No functions; a crate of its own, so that a law more
//! proves nothing else again.
#![tactic(auto)]

mod laws;

pub use laws::keywords_are_known;
