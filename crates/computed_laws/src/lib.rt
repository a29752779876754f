//! Laws of what is computed: the consensus of votes that can be read can be read (dir-spec, "Computing a consensus from a
//! set of votes"). No functions; a crate of its own, so that a law more proves nothing else again.
#![tactic(auto)]

mod laws;

pub use laws::{
    computed_facts_are_in_range, computed_items_are_items, computed_texts_are_read_again,
    consensuses_of_readable_votes_are_read_again, consensuses_within_limits_are_read_again,
    readable_votes_are_in_range, readable_votes_fill_lines,
};
