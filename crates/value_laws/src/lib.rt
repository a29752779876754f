//! Laws of lists of values that stand on one line of a document (dir-spec, "Vote and consensus status document
//! formats"): params, versions of Tor and versions of protocols are read again as they were written. No functions; a
//! crate of its own, so that a law more proves nothing else again. Laws of the lengths of lists of values that stand on
//! one line of a document (dir-spec, "Vote and consensus status document formats"): the canonical text of what a text
//! lists is no longer than that text. No functions.
#![tactic(auto)]

mod laws;
mod length_laws;

pub use laws::{
    kept_numbers_are_in_range, params_are_read_again, protocols_are_read_again,
    versions_are_read_again,
};
pub use length_laws::lists_are_no_longer;
