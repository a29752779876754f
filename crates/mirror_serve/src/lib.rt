//! Serving what a mirror holds over HTTP. What the documents are that a mirror gives.
#![tactic(auto)]

mod connection;
mod giving;
mod law;

pub use connection::mirror_connection;
pub use law::what_is_given;
