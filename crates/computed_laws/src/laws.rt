// That what is computed of votes that can be read can be read too.
ghost use Rattle.computed_laws.specs.Computed.{ComputedFactsAreInRange, ComputedTextsAreReadAgain};
ghost use Rattle.computed_laws.specs.{Computed.ReadableVotesAreInRange, WithinLimits.ComputedItemsAreItems};
ghost use Rattle.computed_laws.specs.WithinLimits.{ReadableVotesFillLines, ConsensusesOfReadableVotesAreReadAgain};
ghost use Rattle.computed_laws.specs.WithinLimits.{ConsensusesWithinLimitsAreReadAgain};

/// A law: a vote that can be written and read again is in range, which the next laws ask of votes.
pub fn readable_votes_are_in_range()
    ensures { ReadableVotesAreInRange }
{}

/// A law: its texts may be the rests of lines.
pub fn readable_votes_fill_lines()
    ensures { ReadableVotesFillLines }
{}

/// A law: what is computed of votes in range says what can be read, in either flavour.
pub fn computed_facts_are_in_range()
    ensures { ComputedFactsAreInRange }
{}

/// A law: the text of what is computed of such votes, with signatures behind it, is read again as that consensus, where its
/// items may be written.
pub fn computed_texts_are_read_again()
    ensures { ComputedTextsAreReadAgain }
{}

/// A law: its items may be written where none passes a limit, if the texts of the votes may be the rests of lines.
pub fn computed_items_are_items()
    ensures { ComputedItemsAreItems }
{}

/// A law: so it is read again where no line, no object and not the whole passes its limit.
pub fn consensuses_within_limits_are_read_again()
    ensures { ConsensusesWithinLimitsAreReadAgain }
{}

/// A law: so is the consensus of votes that can be written and read again.
pub fn consensuses_of_readable_votes_are_read_again()
    ensures { ConsensusesOfReadableVotesAreReadAgain }
{}
