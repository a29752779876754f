//! Laws of a descriptor's own text: it is what that text alone says (dir-spec, "Server descriptor format"). No
//! functions; a crate of its own, so that a law more proves nothing else again. The kinds of documents that this
//! project reads, but votes and certificates (`vote_kinds`), under the laws of documents (dir-spec, "Document
//! meta-format"). No functions; a crate of its own, so that a changed row of a table proves no law of any tables again.
#![tactic(auto)]

mod kind_laws;
mod laws;

pub use kind_laws::{kinds_are_clear, kinds_are_exact, kinds_have_no_doc};
pub use laws::descriptors_are_of_their_text;
