// What is read of a consensus is in range, and is read again where it is written.
ghost use Rattle.consensus_ranges.specs.Read.{ConsensusesReadAreInRange, ReadConsensusesAreReadAgain};

/// A law: a consensus of either flavour that is read from bytes says what can be read. It is all that is asked of the
/// values of one that is written and read again.
pub fn consensuses_read_are_in_range()
    ensures { ConsensusesReadAreInRange }
{}

/// A law: a consensus that was read from bytes and is written is read again as the same, where its signatures stand in
/// the order in which they are written, and its items may be written.
pub fn read_consensuses_are_read_again()
    ensures { ReadConsensusesAreReadAgain }
{}
