// What the definitions of reading and of writing have in common.
ghost use Rattle.group_laws.specs.EntryAgain.{AddressLinesAreReadAgain, BandwidthLinesAreReadAgain};
ghost use Rattle.group_laws.specs.EntryAgain.{KeyLinesAreReadAgain, MicroLinesAreReadAgain, RelayLinesAreReadAgain};

/// A law: a line that says who a relay is and where it is reached is read as that, wherever it stands.
pub fn relay_lines_are_read_again()
    ensures { RelayLinesAreReadAgain }
{}

/// A law: a line of one more address is read as that address.
pub fn address_lines_are_read_again()
    ensures { AddressLinesAreReadAgain }
{}

/// A law: a line of bandwidths is read as those.
pub fn bandwidth_lines_are_read_again()
    ensures { BandwidthLinesAreReadAgain }
{}

/// A law: a line of methods with the digest of a microdescriptor is read as those.
pub fn micro_lines_are_read_again()
    ensures { MicroLinesAreReadAgain }
{}

/// A law: a line that says a relay's Ed25519 key, or that it has none, is read as that, and is not passed over.
pub fn key_lines_are_read_again()
    ensures { KeyLinesAreReadAgain }
{}
