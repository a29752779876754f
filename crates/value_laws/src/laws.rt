// What the definitions of reading and of writing have in common.
ghost use Rattle.value_laws.specs.Again as again;

/// A law: params that were written are read as they are. Wherever their text stands, nothing in it is wrong,
/// and it may be the rest of a line.
pub fn params_are_read_again()
    ensures read { again.ParamsAreReadAgain }
    ensures right { again.ParamsAreRight }
    ensures fill { again.ParamsFillLines }
{}

/// A law: versions that were written are read as they are, also where there are none. Wherever their text stands,
/// nothing in it is wrong, and it may be the rest of a line.
pub fn versions_are_read_again()
    ensures read { again.VersionsAreReadAgain }
    ensures right { again.VersionsAreRight }
    ensures fill { again.VersionsFillLines }
{}

/// A law: protocols that were written are read as they are. Wherever their text stands, nothing in it is wrong,
/// and it may be the rest of a line.
pub fn protocols_are_read_again()
    ensures read { again.ProtocolsAreReadAgain }
    ensures right { again.ProtocolsAreRight }
    ensures fill { again.ProtocolsFillLines }
{}

/// A law: numbers that are kept as the bits of a number ascend, and are from 0 to 63.
pub fn kept_numbers_are_in_range()
    ensures { again.KeptNumbersAreInRange }
{}
