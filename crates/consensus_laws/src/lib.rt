//! Laws of consensuses: what is written is read again (dir-spec, "Vote and consensus status document formats"). No
//! functions; a crate of its own, so that a law more proves nothing else again. Laws of what is read of documents:
//! nothing of it is lost (dir-spec, "Document meta-format", "Vote and consensus status document formats", "Serving and
//! fetching detached signatures"). Where a definition of what is kept has a value for a text that could not be read, no
//! text that was read has it.
#![tactic(auto)]

mod laws;
mod lossless_laws;

pub use laws::{
    computed_consensuses_are_read_again, consensuses_are_read_again,
    consensuses_in_order_are_the_same, signed_parts_stand,
};
pub use lossless_laws::{
    digests_are_hex, digests_are_said, lists_are_read_whole, members_are_there,
    methods_are_not_capped, moments_are_not_capped, objects_spell_bytes,
};
