//! Which flags an authority's vote gives its relays, under rulings that its operator's rules allow (dir-spec,
//! "Assigning flags in a vote").
#![tactic(auto)]

mod addresses;
mod ascending;
mod assigned;
mod flags;
mod hook;
mod laws;
mod limits;
mod operator;
mod relay;
mod relay_flags;
mod ruling;
mod standing;
mod thresholds;

pub use assigned::{Assigned, assign};
pub use flags::Flags;
pub use hook::{Hook, Rules};
pub use laws::{
    a_list_rules_one_way, flags_agree, rejected_relays_have_no_flags, sybils_have_no_other_flag,
    two_run_at_an_address,
};
pub use operator::{OperatorList, OperatorRule};
pub use relay::{Measured, RelayFacts, RuledRelay};
pub use ruling::Ruling;
