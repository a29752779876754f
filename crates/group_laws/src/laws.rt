// What the definitions of reading and of writing have in common.
ghost use Rattle.group_laws.specs.Again.{SignatureLinesAreReadAgain};

/// A law: a line of who signed, and the signature, are read as they were written, wherever they stand.
pub fn signature_lines_are_read_again()
    ensures { SignatureLinesAreReadAgain }
{}
