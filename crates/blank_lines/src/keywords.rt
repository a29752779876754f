// The keyword of the line behind a document.
ghost use Rattle.std.specs.Prelude.{◌≡◌, ◌≤◌, ◌<◌, ◌^◌, length};
ghost use Rattle.dirdoc_grammar.specs.Reading.{first_line};
ghost use Rattle.item_terms.specs.Words.{ends_or_blank};
ghost use Rattle.blank_lines.specs.Keywords as keywords;

use crate::blanks::{after_blanks, is_blank};
use memchr::memchr;

/// The text of the first line.
pub fn line_text(rest: &[u8]) -> &[u8]
    ensures { result.now ≡ (first_line rest.now).text }
{
    match memchr(b'\n', rest) {
        Some(len) => &rest[..len],
        None => rest,
    }
}

/// Whether the keyword of a line is this word.
pub fn has_keyword(line: &[u8], word: &[u8]) -> bool
    ensures { result ≡ keywords.has_keyword word.now line.now }
{
    match line.strip_prefix(word) {
        Some(rest) => ends_keyword(rest),
        None => false,
    }
}

/// Whether a keyword ends before this: nothing follows, or a blank.
fn ends_keyword(rest: &[u8]) -> bool
    ensures { result ≡ ends_or_blank rest.now }
{
    match rest {
        [] => true,
        [first, ..] => is_blank(*first),
    }
}

/// Where the first line stands that is not blank, from the place after a document on, unless it is an `extra-info` line.
pub fn before_extra(bytes: &[u8], start: usize) -> Option<usize>
    requires within { start ≤ length bytes.now }
    requires short { length bytes.now < 2 ^ 61 }
    ensures { result ≡ keywords.before_extra start bytes.now }
{
    let place = after_blanks(bytes, start)?;
    if has_keyword(line_text(&bytes[place..]), b"extra-info") {
        None
    } else {
        Some(place)
    }
}
