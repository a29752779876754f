// What the definitions of reading and of writing have in common.
ghost use Rattle.consensus_laws.specs.Again.{ComputedConsensusesAreReadAgain, ConsensusesAreReadAgain};
ghost use Rattle.consensus_laws.specs.Again.{ConsensusesInOrderAreTheSame, SignedPartsStand};

/// A law: a consensus of either flavour that was written is read again as its flavour has it, and ends with the input.
pub fn consensuses_are_read_again()
    ensures { ConsensusesAreReadAgain }
{}

/// A law: where the facts are such as the flavour has them, and the signatures stand in the order in which they are written,
/// each of a known algorithm, what is read is what was written.
pub fn consensuses_in_order_are_the_same()
    ensures { ConsensusesInOrderAreTheSame }
{}

/// A law: the signed part of a text with signatures is the text without them through the one space behind the first
/// `directory-signature`.
pub fn signed_parts_stand()
    ensures { SignedPartsStand }
{}

/// A law: the text of a consensus that was computed, in a flavour and with signatures behind it, is read again.
pub fn computed_consensuses_are_read_again()
    ensures { ComputedConsensusesAreReadAgain }
{}
