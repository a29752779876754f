//! What several votes say of one field: the value that stands most often, low medians, the flags of a majority,
//! the params, versions and protocols that lists agree on, and the method that most have.
#![tactic(auto)]

mod ballot;
mod choosing;
mod flag_lists;
mod laws;
mod line;
mod majorities;
mod medians;
mod method_votes;
mod param_votes;
mod protocol_votes;
mod text_ballot;
mod version_line;
mod version_set;
mod version_text;
mod version_votes;

pub use ballot::Ballot;
pub use choosing::chosen;
pub use flag_lists::{add_own_flags, known_flags};
pub use laws::{chosen_is_chosen, voted_versions_are_those_of_most};
pub use line::Line;
pub use majorities::majority_flags;
pub use medians::{low_median_i32, low_median_u64};
pub use method_votes::method;
pub use param_votes::params;
pub use protocol_votes::protocols;
pub use text_ballot::most_common;
pub use version_line::VersionLine;
pub use version_votes::versions;
