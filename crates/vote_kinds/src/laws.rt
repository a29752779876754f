// What holds of the tables of certificates and of votes.
ghost use Rattle.vote_kinds.specs.VoteKinds.{VoteKindsAreClear, VoteKindsAreExact, VoteKindsHaveNoDoc};

/// A law: the tables of certificates and of votes are clear, and so sound.
pub fn vote_kinds_are_clear()
    ensures { VoteKindsAreClear }
{}

/// A law: items are read as a certificate, or as a vote, exactly where they are its sections.
pub fn vote_kinds_are_exact()
    ensures { VoteKindsAreExact }
{}

/// A law: the tables of both refuse no item as a line or an object is refused that has a fault. So of a vote that is
/// read while its bytes arrive nothing is held back (`document_laws`).
pub fn vote_kinds_have_no_doc()
    ensures { VoteKindsHaveNoDoc }
{}
