//! Which entries of the votes speak of which relay, and what is chosen of what they say.
#![tactic(auto)]

mod choice;
mod counts;
mod halves;
mod heads;
mod included;
mod lines;
mod members;
mod merge;
mod micro;
mod parts;
mod searching;
mod tuple;

pub use choice::{Choice, Desk, choose, choose_from};
pub use counts::over;
pub use halves::place_of;
pub use included::identities;
pub use members::{eds_at, entries_at, entry_at};
pub use merge::Merge;
pub use parts::{belongs, included_part};
pub use searching::belonging;
