// Values that have one text each, and lists of them.
ghost use Rattle.std.specs.Prelude.{◌≡◌, ◌+◌, ◌≤◌, ◌++◌, ℕ, List, IsOk, OnOk, OnErr, length, map, vec_len};
ghost use Rattle.std.specs.{Prelude.vec_capacity, List.join_with_byte};
ghost use Rattle.text_page.specs.Pages.{counted_length, with_text};
ghost use Rattle.list_values.specs.Lending.{behind_each};

use dir_bytes::{Memory, Text};
use std::mem;
use text_page::Page;

/// A value that has one text.
pub(crate) trait Spelled {
    ghost text: { Self → List ℕ };

    /// Puts the text on a page.
    fn put(&self, page: &mut Page)
        ensures { page.new ≡ with_text page.old (text self.now) };
}

impl Spelled for Text {
    ghost text = { λ value. value };

    fn put(&self, page: &mut Page) {
        page.put(self.as_bytes());
    }
}

/// Puts values on a page, with a byte between each two.
pub(crate) fn put_joined<T: Spelled>(page: &mut Page, values: &[T], separator: u8)
    ensures { page.new ≡ with_text page.old (join_with_byte separator (map T.text values.now)) }
{
    match values.split_first() {
        None => {}
        Some((first, rest)) => {
            first.put(page);
            put_behind(page, rest, separator);
        }
    }
}

/// Puts values on a page, each behind a byte.
fn put_behind<T: Spelled>(page: &mut Page, values: &[T], separator: u8)
    ensures { page.new ≡ with_text page.old (behind_each separator (map T.text values.now)) }
{
    'values: for value in values {
        page.put(&[separator]);
        value.put(page);
    }
}

/// How many bytes values have with a byte between each two. None where a machine has no such number.
#[tactic(auto, using(text_page::proofs::Pages::whole))]
fn count_joined<T: Spelled>(values: &[T], separator: u8) -> Option<usize>
    ensures { result ≡ counted_length (join_with_byte separator (map T.text values.now)) }
{
    let mut page = Page::counting();
    put_joined(&mut page, values, separator);
    page.count()
}

/// Appends values with a byte between each two, for which there is room.
#[tactic(auto, using(text_page::proofs::Pages::whole))]
fn append_joined<T: Spelled>(values: &[T], separator: u8, out: &mut Vec<u8>)
    requires { vec_len out.old + length (join_with_byte separator (map T.text values.now)) ≤ vec_capacity out.old }
    ensures items { out.new.items ≡ out.old.items ++ join_with_byte separator (map T.text values.now) }
    ensures capacity { vec_capacity out.old ≤ vec_capacity out.new }
{
    let empty = Vec::new(*out.allocator());
    let mut page = Page::filling(mem::replace(out, empty));
    put_joined(&mut page, values, separator);
    match page.into_bytes() {
        Some(bytes) => *out = bytes,
        None => unreachable!(),
    }
}

/// Appends values with a byte between each two. Without memory `out` stays as it was.
///
/// # Errors
/// `Memory` is want of memory.
pub(crate) fn push_joined<T: Spelled>(
    values: &[T],
    separator: u8,
    out: &mut Vec<u8>,
) -> Result<(), Memory>
    ensures ok { OnOk result (out.new.items ≡ out.old.items ++ join_with_byte separator (map T.text values.now)) }
    ensures err { OnErr result (out.new.items ≡ out.old.items) }
    ensures room { vec_len out.old + length (join_with_byte separator (map T.text values.now)) ≤ vec_capacity out.old → IsOk result }
    ensures capacity { vec_capacity out.old ≤ vec_capacity out.new }
{
    let Some(count) = count_joined(values, separator) else {
        return Err(Memory);
    };
    out.try_reserve(count)?;
    append_joined(values, separator, out);
    Ok(())
}
