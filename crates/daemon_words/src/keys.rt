// Which verifiers the program asks.
ghost use Rattle.std.specs.Prelude.{◌≡◌};
ghost use Rattle.daemon_words.specs.Keys as grammar;

/// What answers whether signatures are right.
#[derive(Clone, Copy, Debug, PartialEq, Eq)]
pub enum Keys {
    /// The key service.
    Service,
    /// The test scheme, which holds no secret.
    Test,
}

/// What the words of the program, without its name, choose as verifiers, and the words of the command: the test scheme
/// exactly where the first word is `--test-keys`, which is taken off.
pub fn keys_of(words: &[String]) -> (Keys, &[String])
    ensures keys { result.0 ≡ grammar.keys_of words.now }
    ensures command { result.1.now ≡ grammar.command_words words.now }
{
    let Some((first, others)) = words.split_first() else {
        return (Keys::Service, words);
    };
    if is_test_word(first.as_str()) {
        (Keys::Test, others)
    } else {
        (Keys::Service, words)
    }
}

/// Whether a word asks for the test scheme.
fn is_test_word(word: &str) -> bool
    ensures { result ≡ grammar.is_test_word word.now }
{
    word == "--test-keys"
}
