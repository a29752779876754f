// Objects on a page.
ghost use Rattle.std.specs.Prelude.{◌≡◌, ◌≤◌, ◌++◌, ◌∷◌, [], length, take};
ghost use Rattle.item_terms.specs.{Bytes.line_feed, Words.dashes};
ghost use Rattle.dirdoc_grammar.specs.Bodies.{base64_of, body_text, object_text};
ghost use Rattle.text_page.specs.Pages.{with_text};

use base64::engine::general_purpose::STANDARD;
use text_page::Page;

/// The bytes that a line of base64 spells: 64 characters.
const LINE_BYTES: usize = 48;

/// Spells bytes in base64, and answers how many characters these are.
#[tactic(auto, unfolding(dirdoc_grammar::specs::Bodies::base64_of))]
fn encode_line(bytes: &[u8], text: &mut [u8; 64]) -> usize
    requires { length bytes.now ≤ 48 }
    ensures text { take result text.new ≡ base64_of bytes.now }
    ensures within { result ≤ 64 }
{
    match STANDARD.encode_slice(bytes, text) {
        Ok(count) => count,
        Err(_) => unreachable!(),
    }
}

/// Puts a line of base64.
fn put_base64_line(page: &mut Page, bytes: &[u8])
    requires { length bytes.now ≤ 48 }
    ensures { page.new ≡ with_text page.old (base64_of bytes.now ++ line_feed ∷ []) }
{
    let mut text = [0u8; 64];
    let count = encode_line(bytes, &mut text);
    page.put(&text[..count]);
    page.put(b"\n");
}

/// Puts the lines of an object.
fn put_body(page: &mut Page, bytes: &[u8])
    ensures { page.new ≡ with_text page.old (body_text bytes.now) }
{
    let mut rest = bytes;
    'lines: while !rest.is_empty() {
        let (line, others) = rest.split_at(rest.len().min(LINE_BYTES));
        put_base64_line(page, line);
        rest = others;
    }
}

/// Puts a line of a front, words and five dashes.
#[tactic(auto, using(text_page::proofs::Pages::pages))]
fn put_dashed(page: &mut Page, front: &[u8], words: &[u8])
    ensures { page.new ≡ with_text page.old ((front.now ++ words.now ++ dashes) ++ line_feed ∷ []) }
{
    page.put(front);
    page.put(words);
    page.put(b"-----\n");
}

/// Puts an object of these words and bytes there, its base64 in lines of 64 characters.
pub fn put_object(page: &mut Page, words: &[u8], bytes: &[u8])
    ensures { page.new ≡ with_text page.old (object_text words.now bytes.now) }
{
    put_dashed(page, b"-----BEGIN ", words);
    put_body(page, bytes);
    put_dashed(page, b"-----END ", words);
}
