//! A mirror: it holds what a majority of authorities signed (dir-spec, "Directory cache operation"). What holds of a
//! mirror after every list of calls. A document that was read has a byte (dir-spec, "Document meta-format"). No
//! functions; a crate of its own, so that a law more proves nothing else again. What a mirror holds and answers
//! (dir-spec, "Directory cache operation"): in `specs/` its state, its calls and what holds after them; the plain types
//! of its answers. Microdescriptors by the digests that a consensus names (dir-spec, "Computing microdescriptors").
#![tactic(auto)]

mod cert;
mod cert_copies;
mod certs;
mod consensus;
mod extent;
mod held;
mod inputs;
mod kinds;
mod laws;
mod micro_laws;
mod micros;
mod mirror;
mod refusal;
mod report;
mod shelf;
mod signing;
mod taken;
mod wanting;

pub use laws::{
    a_refusal_changes_nothing, documents_have_bytes, what_is_held, what_is_read_has_bytes,
    what_is_served,
};
pub use micro_laws::{rows_are_of_digests, what_is_wanted};
pub use mirror::Mirror;
pub use refusal::MirrorRefusal;
pub use report::{CertReport, MicroReport};
pub use shelf::Shelf;
pub use taken::Taken;
pub use wanting::{MOST_WANTED, wanted};
