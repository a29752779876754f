// Bytes as hex and as base64.
ghost use Rattle.std.specs.Prelude.{◌≡◌, ◌+◌, ◌≤◌, ◌++◌, Some, None, OnOk, OnErr, IsOk, length, vec_len, vec_capacity};
ghost use Rattle.dir_bytes.specs.Fields as fields;
ghost use Rattle.dir_bytes.specs.FieldTexts.{hex_text, base64_text};

use crate::append::{append, reserve};
use crate::fault::{BadField, Memory};
use base64::encoded_len;
use base64::engine::general_purpose::STANDARD_NO_PAD;

/// The bytes that the hex digits spell, of either case, as many as `out` has. `BadField` where they are others; then
/// `out` holds anything.
#[tactic(auto, unfolding(crate::specs::Fields::hex))]
pub fn read_hex(text: &[u8], out: &mut [u8]) -> Result<(), BadField>
    ensures ok { OnOk result (fields.hex (length out.old) text.now ≡ Some out.new) }
    ensures err { OnErr result (fields.hex (length out.old) text.now ≡ None) }
{
    match hex::decode_to_slice(text, out) {
        Ok(()) => Ok(()),
        Err(_) => Err(BadField),
    }
}

/// The bytes that the text spells in strict base64 without `=`, as many as `out` has. `BadField` where they are others;
/// then `out` holds anything.
pub fn read_base64(text: &[u8], out: &mut [u8]) -> Result<(), BadField>
    ensures ok { OnOk result (fields.base64 (length out.old) text.now ≡ Some out.new) }
    ensures err { OnErr result (fields.base64 (length out.old) text.now ≡ None) }
{
    let wanted = out.len();
    match STANDARD_NO_PAD.decode_slice(text, out) {
        Ok(count) => {
            if count == wanted {
                Ok(())
            } else {
                Err(BadField)
            }
        }
        Err(_) => Err(BadField),
    }
}

const UPPER_DIGITS: [u8; 16] = *b"0123456789ABCDEF";

/// Appends the bytes as hex digits, in upper case.
#[tactic(auto, using(crate::proofs::Spelling::spelling))]
pub fn push_hex_upper(out: &mut Vec<u8>, bytes: &[u8]) -> Result<(), Memory>
    ensures ok { OnOk result (out.new.items ≡ out.old.items ++ hex_text bytes.now) }
    ensures err { OnErr result (out.new.items ≡ out.old.items) }
    ensures room { vec_len out.old + length (hex_text bytes.now) ≤ vec_capacity out.old → IsOk result }
    ensures capacity { vec_capacity out.old ≤ vec_capacity out.new }
{
    reserve(out, 2 * bytes.len())?;
    'digits: for byte in bytes {
        let high = UPPER_DIGITS[(*byte / 16) as usize];
        let low = UPPER_DIGITS[(*byte % 16) as usize];
        append(out, &[high, low]);
    }
    Ok(())
}

// Adds bytes of which a line of base64 has room, for which there is room.
#[tactic(auto, unfolding(crate::specs::FieldTexts::base64_text))]
fn append_base64(out: &mut Vec<u8>, bytes: &[u8])
    requires short { length bytes.now ≤ 48 }
    requires room { vec_len out.old + length (base64_text bytes.now) ≤ vec_capacity out.old }
    ensures items { out.new.items ≡ out.old.items ++ base64_text bytes.now }
    ensures len { vec_len out.new ≡ vec_len out.old + length (base64_text bytes.now) }
    ensures capacity { vec_capacity out.old ≤ vec_capacity out.new }
{
    let mut text = [0u8; 64];
    match STANDARD_NO_PAD.encode_slice(bytes, &mut text) {
        Ok(count) => append(out, &text[..count]),
        Err(_) => unreachable!(),
    }
}

/// Appends the bytes in base64, without `=`.
#[tactic(auto, using(crate::proofs::Spelling::spelling))]
pub fn push_base64(out: &mut Vec<u8>, bytes: &[u8]) -> Result<(), Memory>
    ensures ok { OnOk result (out.new.items ≡ out.old.items ++ base64_text bytes.now) }
    ensures err { OnErr result (out.new.items ≡ out.old.items) }
    ensures room { vec_len out.old + length (base64_text bytes.now) ≤ vec_capacity out.old → IsOk result }
    ensures capacity { vec_capacity out.old ≤ vec_capacity out.new }
{
    let Some(count) = encoded_len(bytes.len(), false) else {
        return Err(Memory);
    };
    reserve(out, count)?;
    let mut rest = bytes;
    'pieces: while rest.len() > 48 {
        let (piece, others) = rest.split_at(48);
        append_base64(out, piece);
        rest = others;
    }
    append_base64(out, rest);
    Ok(())
}
