// Names that are made of numbers.
ghost use Rattle.std.specs.Prelude.{◌≡◌, IfOk};
ghost use Rattle.vote_rehearsal.specs.Relays as relay_terms;

use dir_bytes::{Memory, push_decimal};
use std::alloc::Global;

/// A word and a number.
///
/// # Errors
/// `Memory` is want of memory.
pub(crate) fn numbered(alloc: Global, word: &[u8], number: u32) -> Result<Vec<u8>, Memory>
    ensures { IfOk result (λ name. name.items ≡ relay_terms.numbered_word word.now number) }
{
    let mut name = Vec::new(alloc);
    name.extend_from_slice(word)?;
    push_decimal(&mut name, number as u64)?;
    Ok(name)
}

/// A word, a number and the seed.
///
/// # Errors
/// `Memory` is want of memory.
pub(crate) fn seeded(alloc: Global, word: &[u8], number: u32, seed: u64) -> Result<Vec<u8>, Memory>
    ensures { IfOk result (λ name. name.items ≡ relay_terms.seeded_word word.now number seed) }
{
    let mut name = numbered(alloc, word, number)?;
    name.push(b'-')?;
    push_decimal(&mut name, seed)?;
    Ok(name)
}
