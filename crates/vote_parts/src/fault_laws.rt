// Where the first fault of a vote stands.
ghost use Rattle.vote_parts.specs.Within.{VoteFaultsStandWithin};

/// A law: the first fault of a vote stands within its bytes.
pub fn vote_faults_stand_within()
    ensures { VoteFaultsStandWithin }
{}
