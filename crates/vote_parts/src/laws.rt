// What holds of the own part of a vote.
ghost use Rattle.vote_parts.specs.Own.{OwnVotesAreRead, PlacedVotesAreRead};

/// A law: a vote that is read of some bytes is all that is read of its own part of them, and it is kept of that part alone.
pub fn own_votes_are_read()
    ensures { OwnVotesAreRead }
{}

/// A law: a vote that is read at a place of some bytes is what those from there on begin with, and ends so many bytes further on.
pub fn placed_votes_are_read()
    ensures { PlacedVotesAreRead }
{}
