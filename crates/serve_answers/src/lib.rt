//! What comes of one request to an authority: what it asks for is done at the board, and answered.
#![tactic(auto)]

mod bodies;
mod connection;
mod descriptors;
mod finding;
mod handling;
mod held;
mod incoming;
mod keys;
mod known;
mod micros;
mod places;
mod relays;
mod signatures;
mod votes;
mod words;

pub use connection::serve_connection;
pub use descriptors::take_descriptor;
pub use finding::find;
pub use handling::handle;
pub use signatures::take_signatures;
pub use votes::take_vote;
