//! Signatures of a period that were checked: which lines of detached signatures an authority may hold (dir-spec,
//! "Serving and fetching detached signatures"). The document of the signatures that an authority holds (dir-spec,
//! "Serving and fetching detached signatures").
#![tactic(auto)]

mod checking;
mod next;
mod over;
mod report;

pub use checking::check_signatures;
pub use next::next_signatures;
pub use period_terms::{CheckedSig, PeriodView};
pub use report::{SigRefusal, SigReport};
