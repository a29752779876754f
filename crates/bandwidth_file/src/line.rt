// One line of a bandwidth file.
ghost use Rattle.std.specs.Prelude.{◌≡◌, ◌+◌, ◌<◌, ◌≤◌, ◌^◌, length, drop, ◌∷◌, IfSome};
ghost use Rattle.item_terms.specs.Lines.{lines, size};
ghost use Rattle.item_terms.specs.Words as words;
ghost use Rattle.bandwidth_file.specs.Lending.{line_seen};
ghost use Rattle.bandwidth_file.specs.Lines as its;

use crate::refusal::{BandFault, BandReason, at};
use memchr::memchr;

/// The bytes that a line may have, with its NL.
const MAX_LINE: u64 = 1_048_576;

/// A line without its NL, and whether that is there.
#[derive(Clone, Copy, Debug)]
pub(crate) struct LineText<'a> {
    pub(crate) text: &'a [u8],
    pub(crate) ended: bool,
}

/// The first line of some bytes.
pub(crate) fn first_line(rest: &[u8]) -> LineText<'_>
    requires { 0 < length rest.now }
    ensures line { lines rest.now ≡ line_seen result ∷ lines (drop (size (line_seen result)) rest.now) }
    ensures within { size (line_seen result) ≤ length rest.now }
{
    match memchr(b'\n', rest) {
        Some(len) => LineText {
            text: &rest[..len],
            ended: true,
        },
        None => LineText {
            text: rest,
            ended: false,
        },
    }
}

/// How many bytes a line has, with its NL.
pub(crate) fn size_of(line: LineText<'_>) -> u64
    requires { size (line_seen line) < 2 ^ 64 }
    ensures { result ≡ size (line_seen line.entry) }
{
    if line.ended {
        line.text.len() as u64 + 1
    } else {
        line.text.len() as u64
    }
}

/// The first fault of a line at a place, whatever stands in it.
pub(crate) fn line_fault(place: u64, line: LineText<'_>) -> Option<BandFault>
    requires { place + size (line_seen line) < 2 ^ 64 }
    ensures { result ≡ its.line_fault place (line_seen line.entry) }
{
    if size_of(line) > MAX_LINE {
        return Some(at(place + MAX_LINE, BandReason::LineTooLong));
    }
    if !line.ended {
        return Some(at(place + line.text.len() as u64, BandReason::Unterminated));
    }
    match nul_in(line.text) {
        Some(offset) => Some(at(place + offset as u64, BandReason::Nul)),
        None => None,
    }
}

/// Where the first NUL is.
fn nul_in(text: &[u8]) -> Option<usize>
    ensures nul { result ≡ words.nul_in text.now }
    ensures within { IfSome result (λ offset. offset < length text.now) }
{
    memchr(0, text)
}

/// Whether a text has nothing but blanks.
pub(crate) fn is_blank_line(text: &[u8]) -> bool
    ensures { result ≡ words.is_blank_line text.now }
{
    text.iter().all(|byte| is_blank(*byte))
}

/// Whether a byte is a space or a tab.
fn is_blank(byte: u8) -> bool
    ensures { result ≡ words.is_blank byte }
{
    byte == b' ' || byte == b'\t'
}
