//! Shared random values, as votes and consensuses have them in lines: what such a line says, and its text (dir-spec,
//! "Vote and consensus status document formats"). Lines that are lists of values, as documents have them: params,
//! versions of Tor, versions of protocols (dir-spec, "Vote and consensus status document formats"); and what their
//! texts list.
#![tactic(auto)]

mod line;
mod lines;
mod listed;
mod value;

pub use line::{RandomLine, random_of};
pub use lines::{params_of, protocols_of, versions_of};
pub use listed::{params_if, params_in, protocols_if, protocols_in, versions_if, versions_in};
pub use value::{SharedRandom, padded_digest};
