// Values with names.
ghost use Rattle.std.specs.{Prelude.{◌≡◌, ◌≤◌, length, IfOk, OnOk, OnErr}, List.fold};
ghost use Rattle.dir_values.specs.{FlagSets.with_flag, WordSets.HasFirst};
ghost use Rattle.list_values.specs.Lending as lending;
ghost use Rattle.list_values.specs.Maps.{Ascend, names_of, value_at};

use crate::runs::runs_of;
use crate::spelled::{Spelled, put_joined};
use dir_bytes::{Memory, Text};
use dir_values::WordSet;
use std::alloc::Global;
use text_page::Page;

/// A value with a name.
#[derive(Debug, Drop)]
pub struct Named<V> {
    pub name: Text,
    pub value: V,
}

impl Spelled for Named<i32> {
    ghost use Rattle.list_values.specs.Params.{param_text};

    ghost text = { param_text };

    #[tactic(auto, using(text_page::proofs::Pages::pages))]
    fn put(&self, page: &mut Page) {
        page.put(self.name.as_bytes());
        page.put(b"=");
        page.put_signed(self.value);
    }
}

impl Spelled for Named<u64> {
    ghost use Rattle.list_values.specs.Masks.{listed_text};

    ghost text = { listed_text };

    #[tactic(auto, using(text_page::proofs::Pages::pages))]
    fn put(&self, page: &mut Page) {
        page.put(self.name.as_bytes());
        page.put(b"=");
        let runs = runs_of(self.value);
        put_joined(page, &runs.ranges[runs.start..], b',');
    }
}

/// Puts the names of values into a set of words, one behind the other.
///
/// # Errors
/// `Memory` is want of memory; so many of the first names were put in, and nothing else has changed.
pub(crate) fn add_names<'a, V>(items: &'a [Named<V>], names: &mut WordSet<'a>) -> Result<(), Memory>
    ensures ok { OnOk result (names.new ≡ fold with_flag names.old (names_of items.now)) }
    ensures err { OnErr result (HasFirst names.old (names_of items.now) names.new) }
{
    for item in items {
        names.insert(item.name.as_bytes())?;
    }
    Ok(())
}

/// The value for a name among ascending values, if there is one. It is found by halves.
pub(crate) fn value_for<V: Copy>(items: &[Named<V>], name: &[u8]) -> Option<V>
    requires { Ascend items.now }
    ensures { result ≡ value_at items.now name.now }
{
    value_there(items, place_of(items, name), name)
}

/// The value at a place, if there is one and it has a name.
fn value_there<V: Copy>(items: &[Named<V>], place: usize, name: &[u8]) -> Option<V>
    ensures { result ≡ lending.value_there items.now place name.now }
{
    match items.get(place) {
        Some(item) => {
            if item.name.as_bytes() == name {
                Some(item.value)
            } else {
                None
            }
        }
        None => None,
    }
}

/// How many of ascending values have names that come before a name.
fn place_of<V>(items: &[Named<V>], name: &[u8]) -> usize
    requires { Ascend items.now }
    ensures count { result ≡ lending.place_of items.now name.now }
    ensures within { result ≤ length items.now }
{
    items.partition_point(|item| item.name.as_bytes().cmp(name).is_lt())
}

/// Copies of values with their names.
///
/// # Errors
/// `Memory` is want of memory.
pub(crate) fn copies_of<V: Copy + Drop>(
    alloc: Global,
    items: &[Named<V>],
) -> Result<Vec<Named<V>>, Memory>
    ensures { IfOk result (λ copies. copies.items ≡ items.now) }
{
    let mut copies = Vec::with_capacity(alloc, items.len())?;
    for item in items {
        let name = Text::copy_of(alloc, item.name.as_bytes())?;
        copies.push(Named {
            name,
            value: item.value,
        })?;
    }
    Ok(copies)
}
