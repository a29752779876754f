//! The duties of an authority at one moment of the clock: its state advanced, its vote made and brought to its peers, and what it
//! lacks fetched from them (dir-spec, "Voting timeline").
#![tactic(auto)]

mod advancing;
mod fetching;
mod gathering;
mod lent;
mod making;
mod peers;
mod round;
mod ruling;
mod schedule;
mod signatures;
mod turns;
mod voting;
mod working;

pub use round::Round;
pub use ruling::Rulers;
pub use working::duties;
