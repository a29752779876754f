// What is read of a station input is in range.
ghost use Rattle.maker_laws.specs.Ranges.{StationsReadAreInRange};

/// A law: what is read of a station input says what a vote can say.
pub fn station_inputs_read_are_in_range()
    ensures { StationsReadAreInRange }
{}
