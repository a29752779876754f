// What holds of station inputs.
ghost use Rattle.station_laws.specs.Stations.{StationsAreExact};

/// A law: the tables of a station input are sound and clear, and items are read as one exactly where they are its sections.
pub fn station_inputs_are_exact()
    ensures { StationsAreExact }
{}
