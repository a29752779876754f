//! Laws of groups of lines, in any kind of document that has them among its rows: what is written suits its row and is
//! read again (dir-spec, "Vote and consensus status document formats"). No functions; a crate of its own, so that a law
//! more proves nothing else again. Laws of lines: those that consensuses and votes have in common are read again as
//! they were written (dir-spec, "Vote and consensus status document formats"). Laws of entries: the lines that say
//! something of a relay are read again as they were written (dir-spec, "Vote and consensus status document formats").
#![tactic(auto)]

mod entry_laws;
mod laws;
mod line_laws;

pub use entry_laws::{
    address_lines_are_read_again, bandwidth_lines_are_read_again, key_lines_are_read_again,
    micro_lines_are_read_again, relay_lines_are_read_again,
};
pub use laws::signature_lines_are_read_again;
pub use line_laws::{
    delay_lines_are_read_again, flag_lines_are_read_again, random_lines_are_read_again,
    source_lines_are_read_again,
};
