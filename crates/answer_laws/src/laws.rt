// What an input of votes is, and that what is computed of it can be read.
ghost use Rattle.answer_laws.specs.{Inputs.InputsAreVotes, Relays.{RelaysOfInputsAreFew, RelaysOfVotesAreFew}};
ghost use Rattle.answer_laws.specs.{ReportInputs.ReportInputsAreVotes, Texts.AnswersAreReadAgain};
ghost use Rattle.answer_laws.specs.Votes.{VotesInRangeAreFit, VotesOfInputsAreFit, VotesReadAreFit};

/// A law: an input is these votes exactly where they stand in it one behind the other, at most 64, with nothing but blank lines
/// before, between and behind them (dir-spec, "Vote and consensus status document formats").
pub fn inputs_are_votes()
    ensures { InputsAreVotes }
{}

/// A law: an input of `report` begins with these votes, and its consensus at a place, exactly where they stand in it one behind the
/// other, at most 64, with nothing but blank lines before, between and behind them, and then the line `report-consensus`, behind
/// which that place is (dir-spec, "Vote and consensus status document formats").
pub fn report_inputs_are_votes()
    ensures { ReportInputsAreVotes }
{}

/// A law: a vote that is in range, but for the limits, is in range where a consensus takes something of it, and its texts may be
/// the rests of lines. So it is fit.
pub fn votes_in_range_are_fit()
    ensures { VotesInRangeAreFit }
{}

/// A law: a vote that was read from bytes is fit.
pub fn votes_read_are_fit()
    ensures { VotesReadAreFit }
{}

/// A law: so is each vote of an input of bytes, and each that is held of them.
pub fn votes_of_inputs_are_fit()
    ensures { VotesOfInputsAreFit }
{
    inputs_are_votes();
}

/// A law: the text that the command `compute` answers to an input of bytes, alone and with signatures behind it, is read as the
/// consensus of the votes that are held of the input, where no line, no object and not the whole passes its limit.
pub fn answers_are_read_again()
    ensures { AnswersAreReadAgain }
{
    votes_of_inputs_are_fit();
}

/// A law: the consensus of 64 votes or fewer, each of which was read from bytes, lists fewer than 2^22 relays, since a vote has 65,535
/// entries at most. So computing it never answers that there are too many.
pub fn relays_of_votes_are_few()
    ensures { RelaysOfVotesAreFew }
{}

/// A law: so does that of the votes that are held of an input of bytes.
pub fn relays_of_inputs_are_few()
    ensures { RelaysOfInputsAreFew }
{
    inputs_are_votes();
}
