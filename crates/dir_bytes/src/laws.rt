// Laws: what is written is read again. There is nothing to run.
ghost use Rattle.dir_bytes.specs.RoundTrips.{NumberIsReadAgain, SignedIsReadAgain, DateIsReadAgain, ClockIsReadAgain};
ghost use Rattle.dir_bytes.specs.RoundTrips.{MomentIsReadAgain, HexIsReadAgain, Base64IsReadAgain, AddressIsReadAgain};

/// The digits of a number are read as that number.
pub fn number_is_read_again()
    ensures { NumberIsReadAgain }
{}

/// And so with a sign.
pub fn signed_is_read_again()
    ensures { SignedIsReadAgain }
{}

/// The text of a day is read as that day.
pub fn date_is_read_again()
    ensures { DateIsReadAgain }
{}

/// The text of a time of day is read as that time.
pub fn clock_is_read_again()
    ensures { ClockIsReadAgain }
{}

/// The two words of a moment are read as that moment.
pub fn moment_is_read_again()
    ensures { MomentIsReadAgain }
{}

/// The hex digits of bytes are read as those bytes.
pub fn hex_is_read_again()
    ensures { HexIsReadAgain }
{}

/// The base64 of bytes is read as those bytes.
pub fn base64_is_read_again()
    ensures { Base64IsReadAgain }
{}

/// The text of an address is read as that address.
pub fn address_is_read_again()
    ensures { AddressIsReadAgain }
{}
