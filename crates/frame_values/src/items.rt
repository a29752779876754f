// Writing the items that say something.
ghost use Rattle.std.specs.Prelude.{◌≡◌, ◌++◌, OnOk, OnErr, take, vec_len};
ghost use Rattle.dirdoc_grammar.specs.Writing.{item_text, items_text};
ghost use Rattle.frame_values.specs.Items as items;

use crate::parts::moment;
use dir_bytes::{Memory, Text, push_time};
use dirdoc_grammar::{push_line, push_object};
use frame_terms::Keyword;
use std::alloc::Global;

/// Appends an item without an object.
///
/// # Errors
/// `Memory` is want of memory.
pub fn push_bare(out: &mut Vec<u8>, keyword: Keyword, rest: &[u8]) -> Result<(), Memory>
    ensures ok { OnOk result (out.new.items ≡ out.old.items ++ item_text (items.bare keyword rest.now)) }
    ensures err { OnErr result (take (vec_len out.old) out.new.items ≡ out.old.items) }
{
    push_line(out, keyword.text(), rest)?;
    Ok(())
}

/// Appends an item without an object, where there is a rest of its line.
///
/// # Errors
/// `Memory` is want of memory.
pub fn push_if(out: &mut Vec<u8>, keyword: Keyword, rest: &Option<Text>) -> Result<(), Memory>
    ensures ok { OnOk result (out.new.items ≡ out.old.items ++ items_text (items.item_if keyword rest.now)) }
    ensures err { OnErr result (take (vec_len out.old) out.new.items ≡ out.old.items) }
{
    match rest {
        Some(rest) => push_bare(out, keyword, rest.as_bytes()),
        None => Ok(()),
    }
}

/// Appends an item with an object.
///
/// # Errors
/// `Memory` is want of memory.
pub fn push_with_object(
    out: &mut Vec<u8>,
    keyword: Keyword,
    rest: &[u8],
    words: &[u8],
    bytes: &Text,
) -> Result<(), Memory>
    ensures ok { OnOk result (out.new.items ≡ out.old.items ++ item_text (items.with_object keyword rest.now words.now bytes.now)) }
    ensures err { OnErr result (take (vec_len out.old) out.new.items ≡ out.old.items) }
{
    push_line(out, keyword.text(), rest)?;
    push_object(out, words, bytes.as_bytes())?;
    Ok(())
}

/// Appends an item that says a moment, in seconds since 1970-01-01 00:00:00 UTC; one past the calendar is written as
/// its last one.
///
/// # Errors
/// `Memory` is want of memory.
pub fn push_timed(
    out: &mut Vec<u8>,
    alloc: Global,
    keyword: Keyword,
    number: u64,
) -> Result<(), Memory>
    ensures ok { OnOk result (out.new.items ≡ out.old.items ++ item_text (items.moment_item keyword number)) }
    ensures err { OnErr result (take (vec_len out.old) out.new.items ≡ out.old.items) }
{
    let mut rest = Vec::new(alloc);
    push_time(&mut rest, moment(number))?;
    push_bare(out, keyword, &rest)
}
