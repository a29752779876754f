// What holds of votes that are made with a bandwidth file.
ghost use Rattle.maker_laws.specs.FileVotes.{FileVotesReadAsMade, ToldStationsAreStations};

/// A law: what is read of a station input is, with the bandwidths of a bandwidth file, what a station of a vote may be
/// given.
pub fn told_stations_are_stations()
    ensures { ToldStationsAreStations }
{}

/// A law: the text of a vote that is made with a bandwidth file, if it is no longer than a vote may be, is read as what
/// is made, whatever stands before and behind it, and has the bytes of the station's certificate.
pub fn file_votes_read_as_made()
    ensures { FileVotesReadAsMade }
{}
