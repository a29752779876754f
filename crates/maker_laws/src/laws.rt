// What holds of votes that are made.
ghost use Rattle.maker_laws.specs.{Given.StationsReadAreStations, ReadAsMade.{MadeAreInRange, MadeVotesReadAsMade}};
ghost use Rattle.maker_laws.specs.Rulings.{OperatorsMakeOneVote, RejectedRelaysHaveNoEntry};

/// A law: what is read of a station input is what a station of a vote may be given.
pub fn stations_read_are_stations()
    ensures { StationsReadAreStations }
{}

/// A law: what is made of what was read says what can be read, and each of its items may be written, but for the limits.
pub fn made_are_in_range()
    ensures { MadeAreInRange }
{}

/// A law: a text that is no longer than a vote may be is read as what is made, whatever stands before and behind it, and has
/// the bytes of the station's certificate.
pub fn made_votes_read_as_made()
    ensures { MadeVotesReadAsMade }
{}

/// A law: a relay that is rejected has no entry, so is never Valid.
pub fn rejected_relays_have_no_entry()
    ensures { RejectedRelaysHaveNoEntry }
{}

/// A law: under the rules of an operator what is made is one.
pub fn operators_make_one_vote()
    ensures { OperatorsMakeOneVote }
{}
