//! Lists of values that stand on one line of a document: params, versions of Tor, and the versions of protocols.
#![tactic(auto)]

mod equation;
mod laws;
mod mask;
mod name_map;
mod named;
mod number_range;
mod param_list;
mod params;
mod parts;
mod proto_ranges;
mod protocol_list;
mod runs;
mod spelled;
mod version_list;

pub use laws::{ranges_have_their_numbers, values_are_found};
pub use named::Named;
pub use param_list::first_wrong_param;
pub use params::Params;
pub use parts::Parts;
pub use proto_ranges::ProtoRanges;
pub use protocol_list::wrong_protocol;
pub use version_list::{VersionList, wrong_version_list};
