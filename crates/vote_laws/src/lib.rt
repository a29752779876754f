//! Laws of votes: what is written is read again (dir-spec, "Vote and consensus status document formats"). No functions;
//! a crate of its own, so that a law more proves nothing else again. Laws of votes that are made with the given bytes
//! of a certificate (dir-spec, "Vote and consensus status document formats"). What is signed of each certificate and of
//! each vote that is read, in words (dir-spec, "Creating key certificates", "Vote and consensus status document
//! formats").
#![tactic(auto)]

mod laws;
mod made_laws;
mod signed_laws;

pub use laws::votes_are_read_again;
pub use made_laws::made_votes_are_read;
pub use signed_laws::{certificates_cover_their_items, votes_sign_their_items};
