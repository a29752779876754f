// What holds of a vote that was read, whatever follows it.
ghost use Rattle.vote_feed.specs.Ended.{BlankLinesAreNone, OpenVotesAreNone, VotesEnd};

/// A law: the bytes of a vote that was read, up to where it ends, are a whole vote: it ends there whatever follows.
pub fn votes_end()
    ensures { VotesEnd }
{}

/// A law: bytes of which nothing is known yet are no vote.
pub fn open_votes_are_none()
    ensures { OpenVotesAreNone }
{}

/// A law: bytes in which no item is found, and no fault, whatever the limit, are no vote.
pub fn blank_lines_are_none()
    ensures { BlankLinesAreNone }
{}
