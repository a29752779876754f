// The newest consensus method that is known, among the options.
ghost use Rattle.std.specs.Prelude.{◌≡◌};
ghost use Rattle.clap.specs.Words.{found_of, rows_of};
ghost use Rattle.daemon_words.specs.Methods as words;

use crate::values::value_of;
use clap::ArgMatches;
use count_terms::Newest;

/// The newest method that stands among the values, or nothing where another word stands there: 33 where none is named.
pub fn newest_in(values: &ArgMatches<'_>) -> Option<Newest>
    ensures { result ≡ words.newest_in (rows_of (found_of values.now)) }
{
    match value_of(values, "newest-method") {
        Some(word) => newest_named(word),
        None => Some(Newest::Method33),
    }
}

/// The newest method that a word names.
fn newest_named(word: &str) -> Option<Newest>
    ensures { result ≡ words.newest_named word.now }
{
    match word {
        "33" => Some(Newest::Method33),
        "34" => Some(Newest::Method34),
        "35" => Some(Newest::Method35),
        _ => None,
    }
}
