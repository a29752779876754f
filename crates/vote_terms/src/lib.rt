//! What a vote says: the plain records, and in `specs/` which votes are held of many, and when a vote is acceptable.
#![tactic(auto)]

mod entry;
mod facts;
mod laws;
mod limits;
mod list_lines;
mod lists;
mod rank;
mod word;

pub use entry::{EntryFacts, MicroFacts};
pub use facts::{SignatureFacts, VoteFacts};
pub use laws::{
    held_agree, held_ascend, held_is_held, ranks_agree, verified_votes_are_not_refused,
};
pub use limits::MAX_VOTE;
pub use list_lines::{ListSpans, lists_at, no_lists, vote_lists};
pub use lists::VoteLists;
pub use rank::Rank;
pub use word::VoteWord;
