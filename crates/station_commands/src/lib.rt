//! The command `make-vote`: reads what a station is given and the descriptors behind it, and makes its signed vote. The
//! command `make-vote --bandwidth`: reads a bandwidth file, and makes the vote of what stands behind it with its
//! bandwidths. What was measured of relays, where a bandwidth file tells their bandwidths. Laws of the command that
//! makes a vote. No functions; a crate of its own, so that a law more proves nothing else again.
#![tactic(auto)]

mod behind;
mod descriptors;
mod file_making;
mod file_refusal;
mod file_told;
mod front;
mod laws;
mod making;
mod measured_told;
mod order;
mod refusal;
mod told;
mod voting;

pub use behind::station_behind;
pub use descriptors::{from_place, pool_of};
pub use file_making::make_vote_with_file;
pub use file_refusal::{BandwidthRefusal, FileVoteRefusal};
pub use front::file_of;
pub use laws::{such_files_are_not_refused, such_inputs_are_not_refused};
pub use making::{make_vote, period_of, station_of, vote_from};
pub use measured_told::told_by;
pub use order::{members_of, schedule_of};
pub use refusal::{
    CertWord, DescriptorWord, MakeVoteRefusal, OrderWord, PoolRefusal, StationRefusal,
};
pub use told::{cert_word, of_fault};
