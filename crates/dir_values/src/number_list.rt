// Lists of numbers.
ghost use Rattle.std.specs.Prelude.{◌≡◌, ◌++◌, IfOk, OnErr, OnOk, take, vec_len};
ghost use Rattle.dir_values.specs.Numbers as numbers;

use crate::arguments::Arguments;
use crate::number::number_of;
use dir_bytes::{Memory, Seq, push_decimal};
use std::alloc::Global;

/// The place of the first argument that is no number of at most 32 bits. None where each is.
pub fn wrong_number(arguments: &mut Arguments<'_>) -> Option<u64>
    ensures { result ≡ numbers.wrong_number arguments.old }
{
    'arguments: while let Some(argument) = arguments.next() {
        if number_of(argument.text).is_none() {
            return Some(argument.place);
        }
    }
    None
}

/// The number that a word spells, and 0 of another.
fn number_in(word: &[u8]) -> u32
    ensures { result ≡ numbers.number_in word.now }
{
    match number_of(word) {
        Some(number) => number,
        None => 0,
    }
}

/// The numbers that the words of a text spell, in their order; 0 where one is no number.
///
/// # Errors
/// `Memory` is want of memory.
pub fn numbers_in(alloc: Global, text: &[u8]) -> Result<Seq<u32>, Memory>
    ensures { IfOk result (λ read. read ≡ numbers.numbers_in text.now) }
{
    let mut read = Seq::new(Vec::new(alloc));
    let mut arguments = Arguments::at(0, text);
    'arguments: while let Some(argument) = arguments.next() {
        read.push(number_in(argument.text))?;
    }
    Ok(read)
}

/// Appends numbers, with single spaces between them. Without memory a part of them may stand there.
///
/// # Errors
/// `Memory` is want of memory.
pub fn push_numbers(out: &mut Vec<u8>, list: &[u32]) -> Result<(), Memory>
    ensures ok { OnOk result (out.new.items ≡ out.old.items ++ numbers.numbers_text list.now) }
    ensures err { OnErr result (take (vec_len out.old) out.new.items ≡ out.old.items) }
{
    let Some((first, others)) = list.split_first() else {
        return Ok(());
    };
    push_decimal(out, *first as u64)?;
    'numbers: for number in others {
        out.push(b' ')?;
        push_decimal(out, *number as u64)?;
    }
    Ok(())
}
