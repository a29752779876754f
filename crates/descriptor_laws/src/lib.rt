//! Laws of server descriptors: what is written is read again (dir-spec, "Server descriptor format"). No functions; a
//! crate of its own, so that a law more proves nothing else again. Laws of what is read of a server descriptor: its
//! values are in range, and its texts fit into lines (dir-spec, "Server descriptor format"). Laws of what is read of a
//! server descriptor: each of its values is one that can be written and read again (dir-spec, "Server descriptor
//! format"). Laws of microdescriptors: what is written is read again, and what is read is in range (dir-spec,
//! "Computing microdescriptors").
#![tactic(auto)]

mod laws;
mod micro_laws;
mod read_ranges;
mod read_values;

pub use laws::{descriptor_lines_are_read_again, descriptors_are_read_again};
pub use micro_laws::{micros_are_read_again, micros_end_before_the_next, micros_read_are_in_range};
pub use read_ranges::descriptors_read_are_in_range;
pub use read_values::read_descriptors_say_in_range;
