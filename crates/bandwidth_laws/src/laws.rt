// What the definitions of reading and of writing have in common.
ghost use Rattle.bandwidth_laws.specs.Again.{BytesAreOneFile, FilesAreReadAgain, KeysAndValuesStand};

/// A law: the text of a bandwidth file is that file, whose values can be read and whose text passes no limit.
pub fn files_are_read_again()
    ensures { FilesAreReadAgain }
{}

/// A law: a key and a value of bytes that are no blank, no NL and no NUL are a header, where the key is not empty, has no `=` and
/// is not `node_id`, and the line is not too long.
pub fn keys_and_values_stand()
    ensures { KeysAndValuesStand }
{}

/// A law: bytes are one bandwidth file, or none.
pub fn bytes_are_one_file()
    ensures { BytesAreOneFile }
{}
