// The object that may follow a keyword line.

ghost use Rattle.std.specs.Prelude.{◌+◌, ◌<◌, ◌≡◌, ◌≤◌, ◌^◌, drop, Err, IfNone, IfOk, IfSome, length, None, Ok, Some};
ghost use Rattle.std.specs.Prelude.{true};
ghost use Rattle.item_terms.specs.Steps.{object_step};
ghost use Rattle.item_terms.specs.Words as line_words;
ghost use Rattle.dirdoc_grammar.specs.Reading.{last_step, object_of, BeginsObject, FindsLines, FindsObject};
ghost use Rattle.dirdoc_grammar.specs.{Reading.{FindsObjectLine, IfWhole, IsFault}, Seen.{seen_item, LiesInOrder}};

use crate::base64_text::is_body;
use crate::bytes::{are_words, begins_dash, line_size};
use crate::front::{Found, Phase, Stop};
use crate::item::{Item, ObjectText};
use crate::line::{MAX_LINE, at, first_line_of};
use item_terms::{DocFault, DocReason};

/// The bytes that an object may have, from its BEGIN line through its END line.
pub const MAX_OBJECT: u64 = 65_536;

/// The words of a line that begins an object.
fn begin_words(text: &[u8]) -> Option<&[u8]>
    ensures some { IfSome result (λ words. line_words.begin_words text.now ≡ Some words.now) }
    ensures none { IfNone result (line_words.begin_words text.now ≡ None) }
{
    let words = text.strip_prefix(b"-----BEGIN ")?.strip_suffix(b"-----")?;
    if are_words(words) { Some(words) } else { None }
}

/// Whether a line ends the object with these words.
fn is_end_line(words: &[u8], text: &[u8]) -> bool
    ensures { result ≡ line_words.is_end_line words.now text.now }
{
    let Some(rest) = text.strip_prefix(b"-----END ") else {
        return false;
    };
    let Some(end) = rest.strip_prefix(words) else {
        return false;
    };
    end == b"-----".as_slice()
}

/// A line of the object whose BEGIN line stands at `begin`, without its NL.
pub fn object_line(bytes: &[u8], begin: usize, place: usize, limit: u64) -> Result<&[u8], DocFault>
    requires order { begin ≤ place }
    requires inside { place < length bytes.now }
    requires short { length bytes.now < 2 ^ 62 }
    ensures { FindsObjectLine limit begin place bytes.now result }
{
    let rest = &bytes[place..];
    let room = MAX_OBJECT.saturating_sub((place - begin) as u64);
    let other = limit.saturating_sub(place as u64).min(MAX_LINE);
    if room < other && room < line_size(rest) {
        return Err(at(begin as u64, DocReason::ObjectTooLong));
    }
    first_line_of(rest, place as u64, limit)
}

/// What stands between the lines of an object: its words, and its own lines with their place.
#[derive(Clone, Copy, Debug)]
struct Body<'a> {
    words: &'a [u8],
    start: u64,
    lines: &'a [u8],
}

/// The item whose object ends with a line.
fn end_of_object<'a>(
    item: Item<'a>,
    body: Body<'a>,
    begin: u64,
    place: u64,
    text: &[u8],
) -> Result<Item<'a>, DocFault>
    requires fits { place + length text.now < 2 ^ 63 }
    requires dash { line_words.begins_dash text.now ≡ true }
    requires order { LiesInOrder (seen_item item) }
    requires later { item.after ≤ place }
    requires lines { body.start + length body.lines.now ≤ place }
    ensures after { IfOk result (λ whole. whole.after ≡ place + length text.now + 1) }
    ensures order { IfOk result (λ whole. LiesInOrder (seen_item whole)) }
    ensures step { object_step (seen_item item.entry) begin (object_of body.entry) place (record { text = text.now; ended = true }) ≡ last_step result }
{
    let Body {
        words,
        start,
        lines,
    } = body;
    if !is_end_line(words, text) {
        return Err(at(place, DocReason::ObjectEnd));
    }
    if !is_body(lines) {
        return Err(at(begin, DocReason::ObjectBase64));
    }
    Ok(Item {
        object: Some(ObjectText {
            words,
            start,
            lines,
        }),
        after: place + text.len() as u64 + 1,
        ..item
    })
}

/// The words of the object whose first line stands at a place, and the place after that line.
fn first_object_line(bytes: &[u8], begin: usize, limit: u64) -> Result<(&[u8], usize), DocFault>
    requires inside { begin < length bytes.now }
    requires short { length bytes.now < 2 ^ 62 }
    requires dash { line_words.begins_dash (drop begin bytes.now) ≡ true }
    ensures { BeginsObject limit begin bytes.now result }
{
    let line = first_line_of(&bytes[begin..], begin as u64, limit)?;
    let Some(words) = begin_words(line) else {
        return Err(at(begin as u64, DocReason::ObjectWords));
    };
    if line.len() as u64 + 1 > MAX_OBJECT {
        return Err(at(begin as u64, DocReason::ObjectTooLong));
    }
    Ok((words, begin + line.len() + 1))
}

/// What a fault says that was found in the line at a place.
fn stopped<'a>(fault: DocFault, line: usize, phase: Phase) -> Found<'a>
    ensures fault { IsFault result fault line phase }
    ensures order { IfWhole result (λ whole. LiesInOrder (seen_item whole)) }
{
    match fault.reason {
        DocReason::Unterminated => Found::Open(
            Stop {
                item: 0,
                line,
                phase,
            },
            None,
        ),
        _ => Found::Fault(fault),
    }
}

/// The item whose object has these words and lines from a place on.
fn lines_of<'a>(
    bytes: &'a [u8],
    item: Item<'a>,
    words: &'a [u8],
    first: usize,
    limit: u64,
) -> Found<'a>
    requires begins { item.after < first }
    requires inside { first ≤ length bytes.now }
    requires short { length bytes.now < 2 ^ 62 }
    requires order { LiesInOrder (seen_item item) }
    ensures object { FindsLines limit bytes.now item.entry words.entry.now first result }
    ensures order { IfWhole result (λ whole. LiesInOrder (seen_item whole)) }
{
    let begin = item.after as usize;
    let mut place = first;
    'lines: while place < bytes.len() {
        let text = match object_line(bytes, begin, place, limit) {
            Ok(text) => text,
            Err(fault) => return stopped(fault, place, Phase::Object(begin)),
        };
        if begins_dash(text) {
            let body = Body {
                words,
                start: first as u64,
                lines: &bytes[first..place],
            };
            return match end_of_object(item, body, begin as u64, place as u64, text) {
                Ok(whole) => Found::Whole(whole),
                Err(fault) => Found::Fault(fault),
            };
        }
        place += text.len() + 1;
    }
    Found::Open(
        Stop {
            item: 0,
            line: place,
            phase: Phase::Object(begin),
        },
        None,
    )
}

/// The item of a keyword line with the object after it, if there is one.
pub fn with_object<'a>(bytes: &'a [u8], item: Item<'a>, limit: u64) -> Found<'a>
    requires inside { item.after ≤ length bytes.now }
    requires short { length bytes.now < 2 ^ 62 }
    requires order { LiesInOrder (seen_item item) }
    ensures object { FindsObject limit bytes.now item.entry result }
    ensures order { IfWhole result (λ whole. LiesInOrder (seen_item whole)) }
{
    let begin = item.after as usize;
    if begin == bytes.len() {
        let stop = Stop {
            item: 0,
            line: begin,
            phase: Phase::Keyword,
        };
        return Found::Open(stop, Some(item));
    }
    if !begins_dash(&bytes[begin..]) {
        return Found::Whole(item);
    }
    match first_object_line(bytes, begin, limit) {
        Ok((words, first)) => lines_of(bytes, item, words, first, limit),
        Err(fault) => stopped(fault, begin, Phase::Keyword),
    }
}
