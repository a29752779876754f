// Bytes as hex digits, however many.
ghost use Rattle.std.specs.{Prelude.{◌≡◌, IfOk, is_some}, Char.is_ascii_hexdigit, List.list_all};
ghost use Rattle.dir_bytes.specs.HexBytes.{hex_bytes, HexBytesAreReadAgain};

use crate::digests::read_hex;
use crate::fault::Memory;
use crate::text::Text;
use std::alloc::Global;

/// The bytes that hex digits spell, of either case, two digits each, however many. `None` where the text is others.
///
/// # Errors
/// `Memory` is want of memory.
pub fn read_hex_bytes(alloc: Global, text: &[u8]) -> Result<Option<Text>, Memory>
    ensures { IfOk result (λ bytes. bytes ≡ hex_bytes text.now) }
{
    let mut bytes = vec![in alloc; 0u8; text.len() / 2]?;
    match read_hex(text, &mut bytes) {
        Ok(()) => Ok(Some(Text::new(bytes))),
        Err(_) => Ok(None),
    }
}

/// Whether a text is hex digits, of either case, two for each byte.
#[tactic(auto, using(crate::proofs::HexDigits::hex_digits))]
pub fn is_hex(text: &[u8]) -> bool
    ensures { result ≡ is_some (hex_bytes text.now) }
{
    text.len() % 2 == 0 && are_digits(text)
}

/// Whether each byte of a text is a hex digit, of either case.
fn are_digits(text: &[u8]) -> bool
    ensures { result ≡ list_all is_ascii_hexdigit text.now }
{
    text.iter().all(|byte| byte.is_ascii_hexdigit())
}

/// The hex digits of bytes, however many, are read as those bytes.
pub fn hex_bytes_are_read_again()
    ensures { HexBytesAreReadAgain }
{}
