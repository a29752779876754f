// That a vote which is answered reads as it was made.
ghost use Rattle.answer_laws.specs.MadeVotes.{AnsweredFileVotesAreRead, AnsweredVotesAreRead};

use key_port::Signer;

/// A law: the text that `make-vote` answers to an input of bytes is read as a vote, with nothing behind it, that says what was
/// made of the station that the input begins with and of the descriptors behind it.
pub fn answered_votes_are_read<N: Signer>()
    ensures { AnsweredVotesAreRead N.may_give N.steps }
{}

/// A law: so is the one that is answered to an input with a bandwidth file in front.
pub fn answered_file_votes_are_read<N: Signer>()
    ensures { AnsweredFileVotesAreRead N.may_give N.steps }
{}
