//! Laws of what is answered: what an input of votes is, alone and before a consensus, that the consensus which is
//! computed of it lists few relays and can be read (dir-spec, "Computing a consensus from a set of votes"), and that a
//! vote which is made reads as it was made. No functions; a crate of its own, so that a law more proves nothing else
//! again. Laws of health reports, under a verifier that may give each question one answer alone. Nothing that runs
//! stands on them. Laws of computing a consensus: which relays it lists, and of votes that come in several lists, in
//! any order and however often. Laws of what a pool holds after descriptors were kept in turn. Laws of schedules and of
//! the moments of a period (dir-spec, "Voting timeline").
#![tactic(auto)]

mod compute_laws;
mod laws;
mod made_votes;
mod pool_laws;
mod report_laws;
mod schedule_laws;

pub use compute_laws::{
    held_alike, held_of_lists, listed_relays_are_listed, ranks_are_ordered, texts_agree,
};
pub use laws::{
    answers_are_read_again, inputs_are_votes, relays_of_inputs_are_few, relays_of_votes_are_few,
    report_inputs_are_votes, votes_in_range_are_fit, votes_of_inputs_are_fit, votes_read_are_fit,
};
pub use made_votes::{answered_file_votes_are_read, answered_votes_are_read};
pub use pool_laws::{newest_are_held, pool_ranks_agree, pools_ascend};
pub use report_laws::{order_is_free, reports_agree};
pub use schedule_laws::{moments_ascend, phases_are_between, schedules_are_such};
