// How a name stands in a canonical family.
ghost use Rattle.std.specs.Prelude.{◌≡◌, IfOk, map, take, drop};
ghost use Rattle.descriptor_frame.specs.Families as families;

use dir_bytes::{Memory, Text};
use dir_values::{Fingerprint, is_nickname};
use std::alloc::Global;

/// Whether a text begins with `$`.
fn has_dollar(text: &[u8]) -> bool
    ensures { result ≡ families.has_dollar text.now }
{
    match text {
        [] => false,
        [first, ..] => *first == b'$',
    }
}

/// A text without the `$` in front, where there is one.
fn without_dollar(text: &[u8]) -> &[u8]
    ensures { result.now ≡ families.without_dollar text.now }
{
    if has_dollar(text) { &text[1..] } else { text }
}

/// Whether nothing stands here, or `=` or `~` in front.
fn ends_here(text: &[u8]) -> bool
    ensures { result ≡ families.ends_here text.now }
{
    match text {
        [] => true,
        [first, ..] => *first == b'=' || *first == b'~',
    }
}

/// The first 40 bytes, and those behind them.
fn at_forty(text: &[u8]) -> (&[u8], &[u8])
    ensures front { result.0.now ≡ take 40 text.now }
    ensures back { result.1.now ≡ drop 40 text.now }
{
    text.split_at(text.len().min(40))
}

/// The fingerprint that a name spells, where it does.
fn fingerprint_in(name: &[u8]) -> Option<Fingerprint>
    ensures { result ≡ families.fingerprint_in name.now }
{
    let (digits, rest) = at_forty(without_dollar(name));
    if ends_here(rest) {
        Fingerprint::read(digits).ok()
    } else {
        None
    }
}

/// A fingerprint behind `$`, in upper case.
///
/// # Errors
/// `Memory` is want of memory.
fn behind_dollar(alloc: Global, identity: &Fingerprint) -> Result<Text, Memory>
    ensures { IfOk result (λ text. text ≡ families.behind_dollar identity.now) }
{
    let mut text = Vec::new(alloc);
    text.push(b'$')?;
    identity.push(&mut text)?;
    Ok(Text::new(text))
}

/// A byte, in lower case where it is a letter.
fn lower(byte: u8) -> u8
    ensures { result ≡ families.lower byte }
{
    if byte.is_ascii_uppercase() {
        byte + 32
    } else {
        byte
    }
}

/// A nickname in lower case.
///
/// # Errors
/// `Memory` is want of memory.
fn in_lower_case(alloc: Global, nickname: &[u8]) -> Result<Text, Memory>
    ensures { IfOk result (λ text. text ≡ map families.lower nickname.now) }
{
    let bytes: Vec<u8> = nickname.iter().map(|byte| lower(*byte)).collect(alloc)?;
    Ok(Text::new(bytes))
}

/// The canonical form of a name that spells no fingerprint, where it has one.
///
/// # Errors
/// `Memory` is want of memory.
fn other_member(alloc: Global, name: &[u8]) -> Result<Option<Text>, Memory>
    ensures { IfOk result (λ member. member ≡ families.other_member name.now) }
{
    if is_nickname(name) {
        return Ok(Some(in_lower_case(alloc, name)?));
    }
    if has_dollar(name) {
        return Ok(None);
    }
    Ok(Some(Text::copy_of(alloc, name)?))
}

/// The canonical form of a name, where it has one.
///
/// # Errors
/// `Memory` is want of memory.
#[tactic(auto, unfolding(crate::specs::Families::member_of))]
pub(crate) fn member_of(alloc: Global, name: &[u8]) -> Result<Option<Text>, Memory>
    ensures { IfOk result (λ member. member ≡ families.member_of name.now) }
{
    match fingerprint_in(name) {
        Some(identity) => Ok(Some(behind_dollar(alloc, &identity)?)),
        None => other_member(alloc, name),
    }
}
