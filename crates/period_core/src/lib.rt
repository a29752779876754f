//! An authority's period: votes are offered, the consensus is computed, signed and published (dir-spec, "Directory authority
//! operation").
#![tactic(auto)]

mod advancing;
mod documents;
mod judging;
mod log;
mod made;
mod next;
mod offering;
mod owning;
mod publishing;
mod reading;
mod signing;
mod signing_in;
mod state;
mod view;
mod weighing;

pub use made::Made;
pub use period_terms::{CheckedSig, PeriodView};
pub use state::{PeriodState, StartFault};
