// Writing detached signatures.
ghost use Rattle.std.specs.{Prelude.{◌≡◌, IfOk}, List.flat_map};
ghost use Rattle.dir_bytes.specs.FieldTexts.{hex_text};
ghost use Rattle.dirdoc_grammar.specs.Writing.{item_text};
ghost use Rattle.consensus_terms.specs.Signed.{signature_item};
ghost use Rattle.frame_values.specs.Items.{bare, moment_item};
ghost use Rattle.text_page.specs.Pages.{counted_length, with_text};
ghost use Rattle.detached_doc.specs.Private as own;
ghost use Rattle.detached_doc.specs.Texts as texts;

use crate::detached::{AdditionalDigest, Detached, DetachedLine};
use crate::hex_digits::put_hex_bytes;
use crate::object::put_object;
use crate::ordered::in_order;
use consensus_terms::SignatureLine;
use dir_bytes::Memory;
use frame_terms::Keyword;
use frame_values::moment;
use std::alloc::Global;
use text_page::Page;

/// Puts the line of twenty bytes in hex digits.
fn put_hex_line(page: &mut Page, keyword: Keyword, digest: &[u8; 20])
    ensures { page.new ≡ with_text page.old (item_text (bare keyword (hex_text digest.now))) }
{
    page.put(keyword.text());
    page.put(b" ");
    page.put_hex(digest);
    page.put(b"\n");
}

/// Puts the line of a moment; one past the calendar is written as its last one.
fn put_moment_line(page: &mut Page, keyword: Keyword, number: u64)
    ensures { page.new ≡ with_text page.old (item_text (moment_item keyword number)) }
{
    page.put(keyword.text());
    page.put(b" ");
    page.put_moment(moment(number));
    page.put(b"\n");
}

/// Puts the items that stand once.
fn put_head(page: &mut Page, detached: &Detached)
    ensures { page.new ≡ with_text page.old (own.head_text detached.now) }
{
    put_hex_line(page, Keyword::ConsensusDigest, &detached.ns.0);
    put_moment_line(page, Keyword::ValidAfter, detached.valid_after);
    put_moment_line(page, Keyword::FreshUntil, detached.fresh_until);
    put_moment_line(page, Keyword::ValidUntil, detached.valid_until);
}

/// Puts a keyword and two words.
#[tactic(auto, using(text_page::proofs::Pages::pages))]
fn put_two_words(page: &mut Page, keyword: Keyword, first: &[u8], second: &[u8])
    ensures { page.new ≡ with_text page.old (own.two_words keyword first.now second.now) }
{
    page.put(keyword.text());
    page.put_word(first);
    page.put_word(second);
}

/// Puts the digest of another flavour.
fn put_digest(page: &mut Page, digest: &AdditionalDigest)
    ensures { page.new ≡ with_text page.old (own.digest_text digest.now) }
{
    put_two_words(
        page,
        Keyword::AdditionalDigest,
        digest.flavour.as_bytes(),
        digest.algorithm.as_bytes(),
    );
    page.put(b" ");
    put_hex_bytes(page, digest.digest.as_bytes());
    page.put(b"\n");
}

/// Puts the digests of other flavours.
#[tactic(auto, using(text_page::proofs::Pages::pages))]
fn put_digests(page: &mut Page, digests: &[AdditionalDigest])
    ensures { page.new ≡ with_text page.old (flat_map own.digest_text digests.now) }
{
    'digests: for digest in digests {
        put_digest(page, digest);
    }
}

/// Puts an identity and the digest of a key, and ends the line.
#[tactic(auto, using(text_page::proofs::Pages::pages))]
fn put_signer(page: &mut Page, line: &SignatureLine)
    ensures { page.new ≡ with_text page.old (own.signer_part line.now) }
{
    page.put(b" ");
    page.put_hex(&line.identity.0);
    page.put(b" ");
    page.put_hex(&line.key_digest.0);
    page.put(b"\n");
}

/// Puts a signature over another flavour.
fn put_additional(page: &mut Page, flavour: &[u8], line: &SignatureLine)
    ensures { page.new ≡ with_text page.old (item_text (texts.additional_item flavour.now line.now)) }
{
    put_two_words(
        page,
        Keyword::AdditionalSignature,
        flavour,
        line.algorithm.as_bytes(),
    );
    put_signer(page, line);
    put_object(page, b"SIGNATURE", line.signature.as_bytes());
}

/// Puts a signature, where it is over another flavour.
#[tactic(auto, using(text_page::proofs::Pages::pages), unfolding(crate::specs::Private::additional_line_text))]
fn put_additional_line(page: &mut Page, line: &DetachedLine)
    ensures { page.new ≡ with_text page.old (own.additional_line_text line.now) }
{
    match &line.flavour {
        Some(flavour) => put_additional(page, flavour.as_bytes(), &line.line),
        None => {}
    }
}

/// Puts those of signatures that are over other flavours.
#[tactic(auto, using(text_page::proofs::Pages::pages))]
fn put_additional_lines(page: &mut Page, lines: &[DetachedLine])
    ensures { page.new ≡ with_text page.old (flat_map own.additional_line_text lines.now) }
{
    'lines: for line in lines {
        put_additional_line(page, line);
    }
}

/// Puts the name of an algorithm; SHA-1 is not named.
#[tactic(auto, using(text_page::proofs::Pages::pages))]
fn put_algorithm(page: &mut Page, name: &[u8])
    ensures { page.new ≡ with_text page.old (own.named_part name.now) }
{
    if name != b"sha1".as_slice() {
        page.put_word(name);
    }
}

/// Puts a signature over the ns flavour.
fn put_plain(page: &mut Page, line: &SignatureLine)
    ensures { page.new ≡ with_text page.old (item_text (signature_item line.now)) }
{
    page.put(b"directory-signature");
    put_algorithm(page, line.algorithm.as_bytes());
    put_signer(page, line);
    put_object(page, b"SIGNATURE", line.signature.as_bytes());
}

/// Puts a signature, where it is over the ns flavour.
#[tactic(auto, using(text_page::proofs::Pages::pages), unfolding(crate::specs::Private::plain_line_text))]
fn put_plain_line(page: &mut Page, line: &DetachedLine)
    ensures { page.new ≡ with_text page.old (own.plain_line_text line.now) }
{
    match &line.flavour {
        Some(_) => {}
        None => put_plain(page, &line.line),
    }
}

/// Puts those of signatures that are over the ns flavour.
#[tactic(auto, using(text_page::proofs::Pages::pages))]
fn put_plain_lines(page: &mut Page, lines: &[DetachedLine])
    ensures { page.new ≡ with_text page.old (flat_map own.plain_line_text lines.now) }
{
    'lines: for line in lines {
        put_plain_line(page, line);
    }
}

/// Puts detached signatures, with these lines in this order.
#[tactic(auto, using(text_page::proofs::Pages::pages))]
fn put_detached(page: &mut Page, detached: &Detached, lines: &[DetachedLine])
    ensures { page.new ≡ with_text page.old (own.parts detached.now lines.now) }
{
    put_head(page, detached);
    put_digests(page, detached.additional.as_slice());
    put_additional_lines(page, lines);
    put_plain_lines(page, lines);
}

/// How many bytes the text has with these lines in this order.
#[tactic(auto, using(text_page::proofs::Pages::whole))]
fn count(detached: &Detached, lines: &[DetachedLine]) -> Option<usize>
    ensures { result ≡ counted_length (own.parts detached.now lines.now) }
{
    let mut page = Page::counting();
    put_detached(&mut page, detached, lines);
    page.count()
}

/// The text with these lines in this order.
#[tactic(auto, using(text_page::proofs::Pages::whole))]
fn text_of(alloc: Global, detached: &Detached, lines: &[DetachedLine]) -> Result<Vec<u8>, Memory>
    ensures { IfOk result (λ text. text.items ≡ own.parts detached.now lines.now) }
{
    let Some(count) = count(detached, lines) else {
        return Err(Memory);
    };
    let mut room = Vec::new(alloc);
    room.try_reserve(count)?;
    let mut page = Page::filling(room);
    put_detached(&mut page, detached, lines);
    match page.into_bytes() {
        Some(text) => Ok(text),
        None => unreachable!(),
    }
}

/// The canonical text of detached signatures: the digest, the times, the digests of other flavours in their order, their
/// signatures, and those of the ns flavour, each ascending by identity, those of one identity in their order (dir-spec, "Serving
/// and fetching detached signatures"). Hex is written in upper case, an object in lines of 64; a `directory-signature` does not
/// name SHA-1. A moment past the calendar is written as its last one.
///
/// # Errors
/// `Memory` is want of memory.
pub fn write(alloc: Global, detached: &Detached) -> Result<Vec<u8>, Memory>
    ensures { IfOk result (λ text. text.items ≡ texts.detached_text detached.now) }
{
    let lines = in_order(alloc, detached.signatures.as_slice())?;
    text_of(alloc, detached, &lines)
}
