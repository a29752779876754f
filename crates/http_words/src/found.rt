// A list of documents that may be empty.
ghost use Rattle.std.specs.Prelude.{◌≡◌};
ghost use Rattle.http_words.specs.Found as lists;

use dir_bytes::Text;

/// The documents, unless there are none.
pub fn unless_empty(documents: Vec<u8>) -> Option<Text>
    ensures { result ≡ lists.unless_empty documents.items }
{
    if documents.is_empty() {
        return None;
    }
    Some(Text::new(documents))
}
