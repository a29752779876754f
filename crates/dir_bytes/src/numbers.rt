// Numbers as decimal text.
ghost use Rattle.std.specs.Prelude.{◌≡◌, ◌+◌, ◌≤◌, ◌++◌, IfSome, OnOk, OnErr, IsOk, length, vec_len, vec_capacity};
ghost use Rattle.std.specs.Fmt.{decimal, signed_decimal};
ghost use Rattle.dir_bytes.specs.Fields as fields;

use crate::append::push_text;
use crate::fault::{BadField, Memory};

/// The number that decimal digits spell, if it is at most the limit.
#[tactic(auto, using(crate::proofs::Numerals::numbers), unfolding(crate::specs::Fields::number))]
pub(crate) fn number_up_to(text: &[u8], limit: u64) -> Option<u64>
    requires { 9 ≤ limit }
    ensures value { result ≡ fields.number limit text.now }
    ensures within { IfSome result (λ n. n ≤ limit) }
{
    if text.is_empty() {
        return None;
    }
    let mut value = 0u64;
    'digits: for byte in text {
        if !byte.is_ascii_digit() {
            return None;
        }
        let digit = (*byte - b'0') as u64;
        if value > (limit - digit) / 10 {
            return None;
        }
        value = value * 10 + digit;
    }
    Some(value)
}

/// The number that the text spells in decimal digits. `BadField` where it has another form or does not fit.
pub fn read_u16(text: &[u8]) -> Result<u16, BadField>
    ensures { result ≡ fields.or_bad (fields.number 65535 text.now) }
{
    match number_up_to(text, 65535) {
        Some(value) => Ok(value as u16),
        None => Err(BadField),
    }
}

/// The number that the text spells in decimal digits. `BadField` where it has another form or does not fit.
pub fn read_u32(text: &[u8]) -> Result<u32, BadField>
    ensures { result ≡ fields.or_bad (fields.number 4294967295 text.now) }
{
    match number_up_to(text, 4294967295) {
        Some(value) => Ok(value as u32),
        None => Err(BadField),
    }
}

/// The number that the text spells in decimal digits. `BadField` where it has another form or does not fit.
pub fn read_u64(text: &[u8]) -> Result<u64, BadField>
    ensures { result ≡ fields.or_bad (fields.number 18446744073709551615 text.now) }
{
    match number_up_to(text, 18446744073709551615) {
        Some(value) => Ok(value),
        None => Err(BadField),
    }
}

/// The number that the text spells in decimal digits, with a `-` before a negative one. `BadField` where it has another
/// form or does not fit.
#[tactic(auto, unfolding(crate::specs::Fields::signed_number))]
pub fn read_i32(text: &[u8]) -> Result<i32, BadField>
    ensures { result ≡ fields.or_bad (fields.signed_number text.now) }
{
    if text.is_empty() || text[0] != b'-' {
        return match number_up_to(text, 2147483647) {
            Some(value) => Ok(value as i32),
            None => Err(BadField),
        };
    }
    match number_up_to(&text[1..], 2147483648) {
        Some(value) => Ok((0 - value as i64) as i32),
        None => Err(BadField),
    }
}

/// Appends the number's digits, with no leading zero.
pub fn push_decimal(out: &mut Vec<u8>, value: u64) -> Result<(), Memory>
    ensures ok { OnOk result (out.new.items ≡ out.old.items ++ decimal value) }
    ensures err { OnErr result (out.new.items ≡ out.old.items) }
    ensures room { vec_len out.old + length (decimal value) ≤ vec_capacity out.old → IsOk result }
    ensures capacity { vec_capacity out.old ≤ vec_capacity out.new }
{
    let mut buffer = itoa::Buffer::new();
    push_text(out, buffer.format(value).as_bytes())
}

/// Appends the number's digits, after a `-` where it is negative.
pub fn push_i32(out: &mut Vec<u8>, value: i32) -> Result<(), Memory>
    ensures ok { OnOk result (out.new.items ≡ out.old.items ++ signed_decimal value) }
    ensures err { OnErr result (out.new.items ≡ out.old.items) }
    ensures room { vec_len out.old + length (signed_decimal value) ≤ vec_capacity out.old → IsOk result }
    ensures capacity { vec_capacity out.old ≤ vec_capacity out.new }
{
    let mut buffer = itoa::Buffer::new();
    push_text(out, buffer.format(value).as_bytes())
}
