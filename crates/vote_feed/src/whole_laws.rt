// What holds of the bytes of a vote inside an input.
ghost use Rattle.vote_feed.specs.Whole.{FaultyVotesStand, VotesMove, WholeVotesStand, WholeVotesStay};

/// A law: a vote that stands behind other bytes is the one that it is alone, and ends so many bytes later; and so does
/// its first fault stand.
pub fn votes_move()
    ensures { VotesMove }
{}

/// A law: bytes that are a whole vote are that vote, whatever follows them.
pub fn whole_votes_stay()
    ensures { WholeVotesStay }
{}

/// A law: bytes that are a whole vote are that vote, wherever they stand in an input, and whatever follows them.
pub fn whole_votes_stand()
    ensures { WholeVotesStand }
{}

/// A law: bytes that are faulty are refused for one and the same fault, wherever they stand in an input, and whatever
/// follows them.
pub fn faulty_votes_stand()
    ensures { FaultyVotesStand }
{}
