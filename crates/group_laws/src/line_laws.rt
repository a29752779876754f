// What the definitions of reading and of writing have in common.
ghost use Rattle.group_laws.specs.LineAgain.{DelayLinesAreReadAgain, FlagLinesAreReadAgain, SourceLinesAreReadAgain};
ghost use Rattle.group_laws.specs.LineAgain.{RandomLinesAreReadAgain};

/// A law: a line of two numbers of seconds is read as these, wherever it stands.
pub fn delay_lines_are_read_again()
    ensures { DelayLinesAreReadAgain }
{}

/// A law: a line of flags that ascend is read as its text, which spells these flags.
pub fn flag_lines_are_read_again()
    ensures { FlagLinesAreReadAgain }
{}

/// A law: a line that says who an authority is is read as that.
pub fn source_lines_are_read_again()
    ensures { SourceLinesAreReadAgain }
{}

/// A law: a line of a shared random value is read as this value with its count.
pub fn random_lines_are_read_again()
    ensures { RandomLinesAreReadAgain }
{}
