// How many votes an input may have, and why one too many is refused.
ghost use Rattle.std.specs.Prelude.{◌≡◌};
ghost use Rattle.dirdoc_grammar.specs.Seen.{seen_item};
ghost use Rattle.compute_command.specs.Votes as votes;

use dirdoc_grammar::Item;
use frame_reader::first_fault;
use frame_terms::{FrameFault, FrameReason, Limit};
use vote_doc::VoteFrame;

/// How many votes an input may have.
pub(crate) const MOST_VOTES: usize = 64;

/// Why the first item of a vote too many is refused: it begins no vote, or there are too many.
pub(crate) fn item_too_many(item: &Item<'_>) -> FrameFault
    ensures { result ≡ votes.item_too_many (seen_item item.now) }
{
    match first_fault(VoteFrame, item) {
        Some(fault) => fault,
        None => FrameFault {
            place: item.place,
            reason: FrameReason::TooMany(Limit::Votes),
        },
    }
}
