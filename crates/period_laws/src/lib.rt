//! Laws of the period of an authority. Nothing that runs stands on them.
#![tactic(auto)]

mod chances;
mod checked;
mod kept;
mod short_forms;
mod states;
mod times;
mod worlds;

pub use chances::{
    first_votes_are_kept, greater_votes_replace, majorities_compute, signatures_are_kept,
};
pub use checked::{
    accepted_are_acceptable, checked_goes_on, currents_were_published, history_runs,
    signers_are_counted,
};
pub use kept::{changes_tell, steps_keep_it};
pub use short_forms::{base_is_last_begin, forms_are_stored};
pub use states::{
    accepted_are_wanted, computed_of_accepted, front_counts, front_of_history, given_is_told,
    held_are_held, history_goes_on, history_is_one, history_leads, lines_are_accepted,
    period_states_agree, published_is_signed, ranks_are_one, signed_is_published, texts_stand,
};
pub use times::next_is_next;
pub use worlds::{
    all_honest_agree, equal_digests_equal_texts, period_states_sign_once, published_agree,
};
