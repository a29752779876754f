//! Which ports a relay's exit policy opens to most addresses (dir-spec, the `p` line). The items of a relay's exit
//! policy: reading and writing them (dir-spec, "exitpattern").
#![tactic(auto)]

mod item;
mod last;
mod laws;
mod net;
mod nets;
mod policy;
mod ports;
mod ranges;
mod summaries;
mod text;
mod walk;

pub use item::item_of;
pub use last::{after_last, before_last, has_last};
pub use laws::{
    cuts_are_longest, ranges_are_apart, ranges_have_their_ports, summaries_accept,
    summaries_accept_no_more, summaries_are_short,
};
pub use policy::{Policy, has_net_bits};
pub use summaries::summary;
pub use text::push_item;
