// Blank lines behind a document.
ghost use Rattle.std.specs.Prelude.{◌≡◌, ◌≤◌, ◌<◌, ◌^◌, length, IfSome};
ghost use Rattle.item_terms.specs.Words as words;
ghost use Rattle.blank_lines.specs.Blanks as blanks;

use memchr::memchr;

/// Where the first line stands that is not blank, from the place after a document on.
pub fn after_blanks(bytes: &[u8], start: usize) -> Option<usize>
    requires within { start ≤ length bytes.now }
    requires short { length bytes.now < 2 ^ 61 }
    ensures value { result ≡ blanks.after_blanks start bytes.now }
    ensures inside { IfSome result (λ place. place < length bytes.now) }
{
    let mut place = start;
    'lines: while place < bytes.len() {
        let Some(size) = blank_size(&bytes[place..]) else {
            return Some(place);
        };
        place += size;
    }
    None
}

/// How many bytes the first line has with its NL, where it is blank.
fn blank_size(rest: &[u8]) -> Option<usize>
    requires { length rest.now < 2 ^ 61 }
    ensures size { result ≡ blanks.blank_size rest.now }
    ensures within { IfSome result (λ size. (0 < size) × (size ≤ length rest.now)) }
{
    let len = memchr(b'\n', rest)?;
    if has_blanks_alone(&rest[..len]) {
        Some(len + 1)
    } else {
        None
    }
}

/// Whether a text has nothing but blanks.
fn has_blanks_alone(text: &[u8]) -> bool
    ensures { result ≡ words.is_blank_line text.now }
{
    text.iter().all(|b| is_blank(*b))
}

/// Whether a byte is a blank.
pub(crate) fn is_blank(b: u8) -> bool
    ensures { result ≡ words.is_blank b }
{
    b == b' ' || b == b'\t'
}
