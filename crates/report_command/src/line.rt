// The line in front of the consensus.
ghost use Rattle.std.specs.Prelude.{◌≡◌, ◌+◌, ◌≤◌, ◌<◌, ◌^◌, length, IfSome};
ghost use Rattle.dirdoc_grammar.specs.Reading.{first_line};
ghost use Rattle.report_command.specs.Inputs as inputs;

use blank_lines::{after_blanks, ends_at};
use memchr::memchr;

/// How many bytes the line in front of the consensus has, with its NL.
pub(crate) const LINE_SIZE: usize = 17;

/// Where the line in front of the consensus begins, where it is the first from a place on that is not blank.
pub(crate) fn line_place(bytes: &[u8], place: usize) -> Option<usize>
    requires within { place ≤ length bytes.now }
    requires short { length bytes.now < 2 ^ 61 }
    ensures place { result ≡ inputs.line_place place bytes.now }
    ensures inside { IfSome result (λ at. at < length bytes.now) }
{
    let at = after_blanks(bytes, place)?;
    if begins_line(&bytes[at..]) && ends_at(&bytes[..at], place) {
        Some(at)
    } else {
        None
    }
}

/// Whether the first line is the one in front of the consensus.
fn begins_line(rest: &[u8]) -> bool
    ensures { result ≡ inputs.is_line (first_line rest.now) }
{
    match memchr(b'\n', rest) {
        Some(len) => is_line(&rest[..len]),
        None => false,
    }
}

/// Whether a text is that of the line in front of the consensus.
fn is_line(text: &[u8]) -> bool
    ensures { result ≡ inputs.is_line_text text.now }
{
    text == b"report-consensus".as_slice()
}
