//! The first fault of a document stands within its bytes, whatever its kind (dir-spec, "Document meta-format").
//! No functions; a crate of its own, so that a law more proves nothing else again.
#![tactic(auto)]

mod laws;

pub use laws::first_faults_stand_within;
