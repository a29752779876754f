//! What a station is given: its own authority, its schedule and its peers, what its operator rules, and what was
//! measured. What a station is given, as a kind of document: its sections, the tables of their items, and what the
//! items say.
#![tactic(auto)]

mod across;
mod facts;
mod fields;
mod frame;
mod frame_said;
mod head;
mod identity_set;
mod kept;
mod lines;
mod reading;
mod said;
mod source;
mod stranger;
mod value;

pub use across::Across;
pub use facts::{Peer, StationFacts};
pub use frame::{StationFrame, StationKind, StationSection};
pub use frame_said::{MeasuredRelay, MemberLine, ScheduleLine, StationValue};
pub use identity_set::IdentitySet;
pub use reading::read_station;
