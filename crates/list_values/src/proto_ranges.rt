// Versions of protocols.
ghost use Rattle.std.specs.Prelude.{◌≡◌, ◌==◌, ◌+◌, ◌<◌, ◌≤◌, ◌++◌, IfOk, IsOk, OnOk, OnErr, length, map, option_map};
ghost use Rattle.std.specs.{Prelude.{slice_get, vec_len, vec_capacity}, List.fold};
ghost use Rattle.dir_values.specs.{FlagSets.with_flag, Refusals.Reads, WordSets.HasFirst};
ghost use Rattle.text_page.specs.Pages.{with_text};
ghost use Rattle.list_values.specs.Maps as maps;
ghost use Rattle.list_values.specs.Masks as masks;
ghost use Rattle.list_values.specs.Protocols as protocols;

use crate::mask::is_set;
use crate::named::{Named, add_names, copies_of, value_for};
use crate::protocol_list::{protocols_in, wrong_protocol};
use crate::spelled::{push_joined, put_joined};
use dir_bytes::Memory;
use dir_values::{ValueRefusal, WordSet};
use std::alloc::Global;
use std::marker::Model;
use text_page::Page;

/// Versions of protocols: for each name a set of numbers from 0 to 63, which may be empty. Contracts see them as a list that
/// ascends by name, with the numbers of each in ascending order.
#[derive(Debug, Drop)]
pub struct ProtoRanges {
    items: Vec<Named<u64>>,
}

impl Model for ProtoRanges {
    ghost use Rattle.std.specs.Prelude.{List, ℕ};
    ghost use Rattle.list_values.specs.{declared.named.Named.Named, Maps.Ascend, Masks.all_listed};

    ghost Value = { List (Named (List ℕ)) };

    ghost view = { λ s. all_listed s.items.items };

    ghost invariant = { λ s. Ascend s.items.items };
}

impl ProtoRanges {
    /// Protocols that ascend by name, the numbers of each as the bits of a number.
    pub fn new(items: Vec<Named<u64>>) -> ProtoRanges
        requires { maps.Ascend items.items }
        ensures { result ≡ masks.all_listed items.items }
    {
        ProtoRanges { items }
    }

    /// How many protocols there are.
    pub fn len(&self) -> usize
        ensures value { result ≡ length self.now }
        ensures ascending { maps.Ascend self.now }
    {
        self.items.len()
    }

    /// Whether there is no protocol.
    pub fn is_empty(&self) -> bool
        ensures { result ≡ (length self.now == 0) }
    {
        self.items.is_empty()
    }

    /// Whether a protocol has a number. The protocol is found by halves.
    pub fn contains(&self, name: &[u8], number: u8) -> bool
        ensures { result ≡ protocols.has_version self.now name.now number }
    {
        has_version(&self.items, name, number)
    }

    /// The same protocols again.
    ///
    /// # Errors
    /// `Memory` is want of memory.
    pub fn copy(&self, alloc: Global) -> Result<ProtoRanges, Memory>
        ensures { IfOk result (λ copy. copy ≡ self.now) }
    {
        let items = copies_of(alloc, &self.items)?;
        Ok(ProtoRanges { items })
    }

    /// Puts the names into a set of words, one behind the other.
    ///
    /// # Errors
    /// `Memory` is want of memory; so many of the first names were put in, and nothing else has changed.
    pub fn add_names<'a>(&'a self, names: &mut WordSet<'a>) -> Result<(), Memory>
        ensures ok { OnOk result (names.new ≡ fold with_flag names.old (maps.names_of self.now)) }
        ensures err { OnErr result (HasFirst names.old (maps.names_of self.now) names.new) }
    {
        add_names(&self.items, names)
    }

    /// The protocols that stand in a text with blanks between them; numbers of one name are united.
    ///
    /// # Errors
    /// `BadValue` at the first argument that is no name of a protocol, `=` and ranges of numbers from 0 to 63. `Memory` is want
    /// of memory.
    pub fn read(alloc: Global, text: &[u8]) -> Result<ProtoRanges, ValueRefusal>
        ensures { Reads (protocols.protocols_of text.now) result }
    {
        if let Some(place) = wrong_protocol(0, text) {
            return Err(ValueRefusal::BadValue { place });
        }
        let items = protocols_in(alloc, text)?;
        Ok(ProtoRanges { items })
    }

    /// Puts the protocols on a page, with single spaces between them, each with the fewest ranges.
    pub fn put(&self, page: &mut Page)
        ensures { page.new ≡ with_text page.old (protocols.protocols_text self.now) }
    {
        put_joined(page, &self.items, b' ');
    }

    /// Appends the protocols, with single spaces between them, each with the fewest ranges. Without memory `out` stays as it was.
    ///
    /// # Errors
    /// `Memory` is want of memory.
    pub fn push(&self, out: &mut Vec<u8>) -> Result<(), Memory>
        ensures ok { OnOk result (out.new.items ≡ out.old.items ++ protocols.protocols_text self.now) }
        ensures err { OnErr result (out.new.items ≡ out.old.items) }
        ensures room { vec_len out.old + length (protocols.protocols_text self.now) ≤ vec_capacity out.old → IsOk result }
        ensures capacity { vec_capacity out.old ≤ vec_capacity out.new }
    {
        push_joined(&self.items, b' ', out)
    }
}

/// Whether a protocol has a number.
fn has_version(items: &[Named<u64>], name: &[u8], number: u8) -> bool
    requires { maps.Ascend items.now }
    ensures { result ≡ protocols.has_version (masks.all_listed items.now) name.now number }
{
    number < 64 && is_set(mask_at(items, name), number)
}

/// The bits of the numbers of a protocol.
fn mask_at(items: &[Named<u64>], name: &[u8]) -> u64
    requires { maps.Ascend items.now }
    ensures { masks.numbers_of result ≡ protocols.numbers_at (masks.all_listed items.now) name.now }
{
    value_for(items, name).unwrap_or(0)
}
