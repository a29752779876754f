//! Laws of key certificates: what is written is read again (dir-spec, "Creating key certificates"). No functions; a
//! crate of its own, so that a law more proves nothing else again. Laws of a certificate whose bytes are given,
//! wherever they stand (dir-spec, "Creating key certificates").
#![tactic(auto)]

mod given_certs;
mod laws;

pub use given_certs::{given_stand_inside, own_parts_are_certificates};
pub use laws::certificates_are_read_again;
