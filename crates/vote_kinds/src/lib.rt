//! Votes and certificates under the laws of documents (dir-spec, "Document meta-format"). No functions; a crate of its own, so that
//! a changed row of another kind of document proves no law of votes again.
#![tactic(auto)]

mod laws;

pub use laws::{vote_kinds_are_clear, vote_kinds_are_exact, vote_kinds_have_no_doc};
