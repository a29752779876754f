// One line of a document, between its items.

ghost use Rattle.std.specs.Prelude.{◌+◌, ◌<◌, ◌≡◌, ◌≤◌, ◌^◌, Err, IfOk, IfSome, length, MatchResult, None, Ok, Some};
ghost use Rattle.std.specs.Prelude.{true};
ghost use Rattle.item_terms.specs.{Steps.line_item, Faults.line_fault};
ghost use Rattle.item_terms.specs.Faults as faults;
ghost use Rattle.dirdoc_grammar.specs.{Reading.{first_line, Reads}, Seen.{seen_item, seen_if, LiesInOrder}};

use crate::bytes::{
    begins_keyword, ends_or_blank, front_blanks, is_blank_line, keyword_len, line_len, nul_in,
    trim_end,
};
use crate::item::Item;
use item_terms::{DocFault, DocReason};

/// The bytes that a line may have, with its NL.
pub const MAX_LINE: u64 = 1_048_576;

/// The fault with a place and a reason.
pub fn at(place: u64, reason: DocReason) -> DocFault
    ensures { result ≡ record { place = place; reason = reason } }
{
    DocFault { place, reason }
}

/// The fault of a line of so many bytes that passes a limit.
fn too_long(limit: u64, place: u64, size: u64) -> Option<DocFault>
    requires { place + 1048576 < 2 ^ 64 }
    ensures { result ≡ faults.too_long limit place size }
{
    let room = limit.saturating_sub(place);
    if size <= room.min(MAX_LINE) {
        return None;
    }
    Some(if room <= MAX_LINE {
        at(limit, DocReason::DocumentTooLong)
    } else {
        at(place + MAX_LINE, DocReason::LineTooLong)
    })
}

/// The first line of what is left of a document from a place on, without its NL.
pub fn first_line_of(rest: &[u8], place: u64, limit: u64) -> Result<&[u8], DocFault>
    requires { place + length rest.now < 2 ^ 63 }
    ensures { MatchResult result
        (λ text. (first_line rest.now ≡ record { text = text.now; ended = true }) × (line_fault limit place (first_line rest.now) ≡ None))
        (λ fault. line_fault limit place (first_line rest.now) ≡ Some fault) }
{
    let len = line_len(rest);
    let text = &rest[..len];
    if len == rest.len() {
        return Err(match too_long(limit, place, len as u64) {
            Some(fault) => fault,
            None => at(place + len as u64, DocReason::Unterminated),
        });
    }
    if let Some(fault) = too_long(limit, place, len as u64 + 1) {
        return Err(fault);
    }
    match nul_in(text) {
        Some(n) => Err(at(place + n as u64, DocReason::Nul)),
        None => Ok(text),
    }
}

/// What a line between items holds.
fn item_of(text: &[u8], place: u64) -> Result<Option<Item<'_>>, DocFault>
    requires { place + length text.now < 2 ^ 63 }
    ensures after { IfOk result (λ item. IfSome item (λ i. i.after ≡ place + length text.now + 1)) }
    ensures order { IfOk result (λ item. IfSome item (λ i. LiesInOrder (seen_item i))) }
    ensures item { MatchResult result
        (λ item. line_item place (record { text = text.now; ended = true }) ≡ Ok (seen_if item))
        (λ fault. line_item place (record { text = text.now; ended = true }) ≡ Err fault) }
{
    if is_blank_line(text) {
        return Ok(None);
    }
    let (keyword, rest) = text.split_at(keyword_len(text));
    if !(begins_keyword(text) && ends_or_blank(rest)) {
        return Err(at(place, DocReason::Keyword));
    }
    let blanks = front_blanks(rest);
    Ok(Some(Item {
        keyword,
        separator: rest.first().copied(),
        arguments: trim_end(&rest[blanks..]),
        start: place + (keyword.len() + blanks) as u64,
        line_end: place + text.len() as u64 + 1,
        object: None,
        place,
        after: place + text.len() as u64 + 1,
    }))
}

/// What the line at a place holds, and where the next one stands.
pub fn line_at(
    bytes: &[u8],
    place: usize,
    limit: u64,
) -> Result<(Option<Item<'_>>, usize), DocFault>
    requires inside { place < length bytes.now }
    requires short { length bytes.now < 2 ^ 62 }
    ensures read { Reads limit place bytes.now result }
    ensures order { IfOk result (λ r. IfSome r.0 (λ i. LiesInOrder (seen_item i))) }
{
    let text = first_line_of(&bytes[place..], place as u64, limit)?;
    let item = item_of(text, place as u64)?;
    Ok((item, place + text.len() + 1))
}
