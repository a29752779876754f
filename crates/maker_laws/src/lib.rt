//! Laws of votes that an authority makes (dir-spec, "Vote and consensus status document formats"). No functions; a
//! crate of its own, so that a law more proves nothing else again. The laws of measured bandwidths in made votes. Laws
//! of the lines of a vote that say what a station is given (dir-spec, "Document meta-format"). No functions. The law of
//! the certificate that a station is given. Laws of the range of what a station is given.
#![tactic(auto)]

mod file_laws;
mod laws;
mod measured_laws;
mod station_cert_laws;
mod station_line_laws;
mod station_range_laws;

pub use file_laws::{file_votes_read_as_made, told_stations_are_stations};
pub use laws::{
    made_are_in_range, made_votes_read_as_made, operators_make_one_vote,
    rejected_relays_have_no_entry, stations_read_are_stations,
};
pub use measured_laws::{entries_are_told, told_entries_are_told, told_relays_are_told};
pub use station_cert_laws::station_certificates_are_given;
pub use station_line_laws::given_lines_are_short;
pub use station_range_laws::station_inputs_read_are_in_range;
