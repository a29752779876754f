//! The first fault of a consensus, of a microdescriptor and of a certificate stands within its bytes (dir-spec, "Document
//! meta-format").
//! No functions; a crate of its own, so that a law more proves nothing else again.
#![tactic(auto)]

mod laws;

pub use laws::{
    cert_faults_stand_within, consensus_faults_stand_within, micro_faults_stand_within,
};
