//! Laws of what a station is given. No functions. The first fault of a server descriptor, and of what a station is
//! given, stands within its bytes (dir-spec, "Server descriptor format"). No functions; a crate of its own, so that a
//! law more proves nothing else again.
#![tactic(auto)]

mod laws;
mod station_places;

pub use laws::station_inputs_are_exact;
pub use station_places::{descriptor_faults_stand_within, station_faults_stand_within};
