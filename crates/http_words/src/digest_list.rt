// The list of digests by which microdescriptors are asked for.
ghost use Rattle.std.specs.{Prelude.{◌≡◌, ◌≤◌, IfOk, length}, List.position_or_len, Option.option_map};
ghost use Rattle.dir_bytes.specs.Fields as fields;
ghost use Rattle.http_words.specs.DigestLists.{SplitsOff, digest_list, is_hyphen};

use dir_bytes::{Memory, read_base64};
use std::alloc::Global;

/// The most digests that one request may ask for.
pub const DIGEST_LIMIT: usize = 92;

/// The digest that a text spells.
fn digest_of(text: &[u8]) -> Option<[u8; 32]>
    ensures { result ≡ fields.base64 32 text.now }
{
    let mut out = [0u8; 32];
    match read_base64(text, &mut out) {
        Ok(()) => Some(out),
        Err(_) => None,
    }
}

/// How many bytes stand before the first hyphen; all, where there is none.
fn part_len(text: &[u8]) -> usize
    ensures place { result ≡ position_or_len is_hyphen text.now }
    ensures within { result ≤ length text.now }
{
    text.iter().take_while(|byte| **byte != b'-').count()
}

/// What stands before the first hyphen, and what stands behind it, if there is one.
#[tactic(auto, using(crate::proofs::Digests::first_part, crate::proofs::Digests::last_part))]
fn split_off(text: &[u8]) -> (&[u8], Option<&[u8]>)
    ensures { SplitsOff text.now result.0.now result.1 }
{
    let length = part_len(text);
    if length < text.len() {
        (&text[..length], Some(&text[length + 1..]))
    } else {
        (text, None)
    }
}

/// The digests of a list, each in base64 without `=`, with `-` between them: one to 92. None where the text is no such
/// list.
///
/// # Errors
/// `Memory` is want of memory.
pub fn read_digests(alloc: Global, text: &[u8]) -> Result<Option<Vec<[u8; 32]>>, Memory>
    ensures { IfOk result (λ found. option_map (λ digests. digests.items) found ≡ digest_list text.now) }
{
    let mut digests = Vec::new(alloc);
    let mut rest = text;
    'parts: while digests.len() < DIGEST_LIMIT {
        let (part, behind) = split_off(rest);
        let Some(digest) = digest_of(part) else {
            return Ok(None);
        };
        digests.push(digest)?;
        match behind {
            Some(more) => rest = more,
            None => return Ok(Some(digests)),
        }
    }
    Ok(None)
}
