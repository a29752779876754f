//! Laws of bandwidth files: what bytes say is one file, and what is written is read again ("Bandwidth File Format").
//! No functions; a crate of its own, so that a law more proves nothing else again.
#![tactic(auto)]

mod laws;

pub use laws::{bytes_are_one_file, files_are_read_again, keys_and_values_stand};
