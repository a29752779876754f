// Bytes in hex digits, however many, on a page.
ghost use Rattle.std.specs.Prelude.{◌≡◌};
ghost use Rattle.dir_bytes.specs.FieldTexts.{hex_text};
ghost use Rattle.text_page.specs.Pages.{with_text};

use text_page::Page;

const UPPER_DIGITS: [u8; 16] = *b"0123456789ABCDEF";

/// Puts bytes there as two hex digits each, in upper case.
pub fn put_hex_bytes(page: &mut Page, bytes: &[u8])
    ensures { page.new ≡ with_text page.old (hex_text bytes.now) }
{
    'digits: for byte in bytes {
        let high = UPPER_DIGITS[(*byte / 16) as usize];
        let low = UPPER_DIGITS[(*byte % 16) as usize];
        page.put(&[high, low]);
    }
}
