// IPv4 addresses.
ghost use Rattle.std.specs.Prelude.{◌≡◌, ◌+◌, ◌≤◌, ◌++◌, OnOk, OnErr, IsOk, length, vec_len, vec_capacity};
ghost use Rattle.std.specs.List.{position_or_len, before_first, after_first};
ghost use Rattle.dir_bytes.specs.Fields as fields;
ghost use Rattle.dir_bytes.specs.FieldTexts.{address_text};

use crate::append::{append, reserve};
use crate::fault::{BadField, Memory};
use crate::numbers::number_up_to;

// How many bytes stand before the first dot.
fn dot_place(text: &[u8]) -> usize
    ensures place { result ≡ position_or_len fields.is_dot text.now }
    ensures within { result ≤ length text.now }
{
    text.iter().take_while(|byte| **byte != b'.').count()
}

fn before_dot(text: &[u8]) -> &[u8]
    ensures { result.now ≡ before_first fields.is_dot text.now }
{
    &text[..dot_place(text)]
}

fn after_dot(text: &[u8]) -> &[u8]
    ensures { result.now ≡ after_first fields.is_dot text.now }
{
    let place = dot_place(text);
    if place < text.len() {
        &text[place + 1..]
    } else {
        &[]
    }
}

/// The IPv4 address that the text spells as four numbers with dots, the first one in the highest byte. `BadField` where
/// it has another form.
#[tactic(auto, unfolding(crate::specs::Fields::address))]
pub fn read_address(text: &[u8]) -> Result<u32, BadField>
    ensures { result ≡ fields.or_bad (fields.address text.now) }
{
    let second = after_dot(text);
    let third = after_dot(second);
    let fourth = after_dot(third);
    let (Some(a), Some(b), Some(c), Some(d)) = (
        number_up_to(before_dot(text), 255),
        number_up_to(before_dot(second), 255),
        number_up_to(before_dot(third), 255),
        number_up_to(fourth, 255),
    ) else {
        return Err(BadField);
    };
    Ok((((a * 256 + b) * 256 + c) * 256 + d) as u32)
}

/// Appends the IPv4 address as four numbers with dots.
#[tactic(auto, unfolding(crate::specs::FieldTexts::address_text))]
pub fn push_address(out: &mut Vec<u8>, address: u32) -> Result<(), Memory>
    ensures ok { OnOk result (out.new.items ≡ out.old.items ++ address_text address) }
    ensures err { OnErr result (out.new.items ≡ out.old.items) }
    ensures room { vec_len out.old + length (address_text address) ≤ vec_capacity out.old → IsOk result }
    ensures capacity { vec_capacity out.old ≤ vec_capacity out.new }
{
    let (mut first, mut second, mut third, mut fourth) = (
        itoa::Buffer::new(),
        itoa::Buffer::new(),
        itoa::Buffer::new(),
        itoa::Buffer::new(),
    );
    let a = first.format(address / 16777216).as_bytes();
    let b = second.format(address / 65536 % 256).as_bytes();
    let c = third.format(address / 256 % 256).as_bytes();
    let d = fourth.format(address % 256).as_bytes();
    reserve(out, a.len() + b.len() + c.len() + d.len() + 3)?;
    append(out, a);
    append(out, b".");
    append(out, b);
    append(out, b".");
    append(out, c);
    append(out, b".");
    append(out, d);
    Ok(())
}
