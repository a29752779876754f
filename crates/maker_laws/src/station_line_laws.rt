// The lines of a vote that say what a station is given.
ghost use Rattle.maker_laws.specs.Lines.{GivenLinesAreShort};

/// A law: the lines of a vote that say what was read of a station input are no longer than a line may be.
pub fn given_lines_are_short()
    ensures { GivenLinesAreShort }
{}
