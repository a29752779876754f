// What is written is read again, and what the calls of a writer have written.

ghost use Rattle.grammar_laws.specs.{Again.{ObjectsAreReadAgain, ReadsAgain}, Calls.WritersWriteItems};
ghost use Rattle.grammar_laws.specs.Written.{WrittenItemsAreRead};

/// A law: items that were written are read again, and what follows them is read as it would be
/// alone. A line that begins with `-` may follow only an item that has an object.
pub fn reads_again()
    ensures { ReadsAgain }
{}

/// A law: the lines of an object that was written spell its bytes.
pub fn objects_are_read_again()
    ensures { ObjectsAreReadAgain }
{}

/// A law: whatever calls a writer is given, once it is outside a line it has written items, each of
/// which may be written but for the limits.
pub fn writers_write_items()
    ensures { WritersWriteItems }
{}

/// A law: such items are read again, from the place where the first of them was written, if none of
/// them passes a limit there.
pub fn written_items_are_read()
    ensures { WrittenItemsAreRead }
{}
