//! The consensus of the votes that are held. The relays that a consensus lists, computed in one walk over the votes.
#![tactic(auto)]

mod agreements;
mod bandwidth;
mod counting;
mod flags;
mod known;
mod lists;
mod marks;
mod median;
mod methods;
mod protocol_lists;
mod randoms;
mod record;
mod relay;
mod setting;
mod timing;
mod version_lists;
mod walk;
mod weights;

pub use record::{CalcFault, compute};
pub use walk::routers;
