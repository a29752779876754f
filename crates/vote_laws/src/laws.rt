// What the definitions of reading and of writing have in common.
ghost use Rattle.vote_laws.specs.Again.{VotesAreReadAgain};

/// A law: a vote that was written is read again, whatever stands before it and behind it. What is read says the same,
/// has the text's bytes, and ends where it ends.
pub fn votes_are_read_again()
    ensures { VotesAreReadAgain }
{}
