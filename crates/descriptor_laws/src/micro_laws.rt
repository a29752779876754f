// What the definitions of reading and of writing have in common, and what is read is in range.
ghost use Rattle.descriptor_laws.specs.MicroAgain.{MicrosAreReadAgain, MicrosEndBeforeTheNext};
ghost use Rattle.descriptor_laws.specs.Read.{MicrosReadAreInRange};

/// A law: a microdescriptor that was written is read again. What is read says the same, and ends with the text.
pub fn micros_are_read_again()
    ensures { MicrosAreReadAgain }
{}

/// A law: so is one that other microdescriptors follow, as those do that are asked for together. It ends where its text
/// ends, before the next `onion-key`.
pub fn micros_end_before_the_next()
    ensures { MicrosEndBeforeTheNext }
{}

/// A law: a microdescriptor that is read from bytes is in range. Each of its values is one that can be read, as it is asked of
/// one that is written and read again, whose items pass no limit.
pub fn micros_read_are_in_range()
    ensures { MicrosReadAreInRange }
{}
