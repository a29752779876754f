//! When an authority votes, signs and publishes (dir-spec, "Directory authority operation: schedule").
#![tactic(auto)]

mod config;
mod phase;

pub use config::{Config, ScheduleFault};
pub use phase::{
    Phase, fetching_begins, freeze, next_valid_after, phase_at, upload_cutoff, voting_begins,
};
