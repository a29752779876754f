// What a vote that was made has in common with what is read of it.
ghost use Rattle.vote_laws.specs.Made.{MadeVotesAreRead};

/// A law: a vote that was made of what it says and of the bytes that are given for its certificate is read again, whatever
/// stands before and behind it. What is read says the same, has the text's bytes, of which the same part is signed, and has
/// the given bytes for its certificate's.
pub fn made_votes_are_read()
    ensures { MadeVotesAreRead }
{}
