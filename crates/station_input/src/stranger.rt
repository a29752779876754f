// The keywords that a vote knows.
ghost use Rattle.std.specs.Prelude.{◌≡◌};
ghost use Rattle.frame_terms.specs.Order as order;
ghost use Rattle.vote_frame.specs.Tables.{vote_tables};

use frame_reader::Frame;
use frame_terms::Keyword;
use vote_frame::{VoteFrame, VoteSection};

/// Whether a section of a vote knows a keyword.
fn knows_in(section: VoteSection, keyword: Keyword) -> bool
    ensures { result ≡ order.knows_in vote_tables section keyword }
{
    VoteFrame
        .rows(section)
        .iter()
        .any(|row| row.keyword.same(keyword))
}

/// Whether a vote knows a keyword.
pub(crate) fn is_of_vote(keyword: Keyword) -> bool
    ensures { result ≡ order.knows vote_tables keyword }
{
    knows_in(VoteSection::Preamble, keyword)
        || knows_in(VoteSection::Authority, keyword)
        || knows_in(VoteSection::Certificate, keyword)
        || knows_in(VoteSection::Entry, keyword)
        || knows_in(VoteSection::Footer, keyword)
}
