//! The texts of a consensus, written into room that was reserved, or counted. It sees no vote.
#![tactic(auto)]

mod body;
mod facts;
mod lists;
mod preamble;
mod router;
mod signed;
mod source;
mod unsigned_text;
mod weights;
mod words;

pub use facts::write_facts;
pub use signed::{digests, write_signed};
pub use unsigned_text::{unsigned, unsigned_both, unsigned_len, write_unsigned};
