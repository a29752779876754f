//! Votes: reading them, when one is acceptable, and which are held.
#![tactic(auto)]

mod accepted;
mod check;
mod checked;
mod facts;
mod head;
mod head_values;
mod held;
mod kept;
mod reading;
mod says;
mod vote;

pub use accepted::{Accepted, Placed};
pub use authority_certs::{Cert, CertAnswer};
pub use check::{VoteRefusal, check_vote};
pub use checked::CheckedVote;
pub use held::HeldVote;
pub use kept::{Kept, nothing_kept};
pub use reading::{read, vote_in};
pub use relay_entries::EdOpinion;
pub use vote::Vote;
pub use vote_entries::Entry;
pub use vote_frame::{VoteFrame, VoteKind, VoteSection, VoteValue};
pub use vote_terms::{EntryFacts, Rank, SignatureFacts, VoteFacts, VoteLists, VoteWord};
pub use vote_text::write;
