//! Laws of detached signatures: what is written is read again, and what is read is in range
//! (dir-spec, "Serving and fetching detached signatures").
//! No functions; a crate of its own, so that a law more proves nothing else again.
#![tactic(auto)]

mod laws;

pub use laws::{
    detached_signatures_are_read_again, detached_signatures_in_order_are_the_same,
    detached_signatures_read_are_in_range,
};
