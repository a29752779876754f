//! A vote that stands alone, with nothing but blank lines behind it, read of bytes that are there or that arrive
//! (dir-spec, "Vote and consensus status document formats"). An uploaded vote, read while its body arrives (dir-spec,
//! "General-use HTTP URLs").
#![tactic(auto)]

mod alone;
mod coming;
mod reading;

pub use alone::lone_vote;
pub use coming::LoneVote;
pub use reading::read_vote;
