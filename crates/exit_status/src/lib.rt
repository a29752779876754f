//! How a run ends: the statuses, the number of each, and the line that each writes; and how each command's refusal is told.
#![tactic(auto)]

mod bandwidth_lines;
mod document_lines;
mod parts;
mod report_lines;
mod station_lines;
mod status;
mod status_line;
mod told;
mod vote_lines;

pub use status::{Refusal, Status};
pub use status_line::report;
pub use told::{by_compute, by_file_vote, by_make_vote, by_report, by_serve, by_subject};
