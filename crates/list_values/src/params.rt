// Params of the network.
ghost use Rattle.std.specs.Prelude.{◌≡◌, ◌==◌, ◌+◌, ◌<◌, ◌≤◌, ◌++◌, Some, IfOk, IsOk, OnOk, OnErr, length, slice_get};
ghost use Rattle.std.specs.{Prelude.{vec_len, vec_capacity}, List.fold};
ghost use Rattle.dir_values.specs.{FlagSets.with_flag, Refusals.Reads, WordSets.HasFirst};
ghost use Rattle.text_page.specs.Pages.{with_text};
ghost use Rattle.list_values.specs.Maps as maps;
ghost use Rattle.list_values.specs.Params as its;

use crate::named::{Named, add_names, copies_of, value_for};
use crate::param_list::{first_wrong_param, params_in};
use crate::spelled::{push_joined, put_joined};
use dir_bytes::Memory;
use dir_values::{ValueRefusal, WordSet};
use std::alloc::Global;
use std::marker::Model;
use text_page::Page;

/// Params of the network: numbers by their names. Contracts see them as a list that ascends by name.
#[derive(Debug, Drop)]
pub struct Params {
    items: Vec<Named<i32>>,
}

impl Model for Params {
    ghost use Rattle.std.specs.Prelude.{List, ℤ};
    ghost use Rattle.list_values.specs.{declared.named.Named.Named, Maps.Ascend};

    ghost Value = { List (Named ℤ) };

    ghost view = { λ s. s.items.items };

    ghost invariant = { λ s. Ascend s.items.items };
}

impl Params {
    /// Params that ascend by name.
    pub fn new(items: Vec<Named<i32>>) -> Params
        requires { maps.Ascend items.items }
        ensures { result ≡ items.items }
    {
        Params { items }
    }

    /// How many params there are.
    pub fn len(&self) -> usize
        ensures value { result ≡ length self.now }
        ensures ascending { maps.Ascend self.now }
    {
        self.items.len()
    }

    /// Whether there is no param.
    pub fn is_empty(&self) -> bool
        ensures { result ≡ (length self.now == 0) }
    {
        self.items.is_empty()
    }

    /// The i-th param, from 0.
    pub fn entry(&self, i: usize) -> &Named<i32>
        requires { i < length self.now }
        ensures { slice_get self.now i ≡ Some result.now }
    {
        &self.items[i]
    }

    /// The number of the param with a name, if there is one. It is found by halves.
    pub fn value(&self, name: &[u8]) -> Option<i32>
        ensures { result ≡ maps.value_at self.now name.now }
    {
        value_for(&self.items, name)
    }

    /// The same params again.
    ///
    /// # Errors
    /// `Memory` is want of memory.
    pub fn copy(&self, alloc: Global) -> Result<Params, Memory>
        ensures { IfOk result (λ copy. copy ≡ self.now) }
    {
        let items = copies_of(alloc, &self.items)?;
        Ok(Params { items })
    }

    /// Puts the names into a set of words, one behind the other.
    ///
    /// # Errors
    /// `Memory` is want of memory; so many of the first names were put in, and nothing else has changed.
    pub fn add_names<'a>(&'a self, names: &mut WordSet<'a>) -> Result<(), Memory>
        ensures ok { OnOk result (names.new ≡ fold with_flag names.old (maps.names_of self.now)) }
        ensures err { OnErr result (HasFirst names.old (maps.names_of self.now) names.new) }
    {
        add_names(&self.items, names)
    }

    /// The params that stand in a text with blanks between them.
    ///
    /// # Errors
    /// `BadValue` at the first argument that is no param, or whose name stands before too. `Memory` is want of memory.
    pub fn read(alloc: Global, text: &[u8]) -> Result<Params, ValueRefusal>
        ensures { Reads (its.params_of text.now) result }
    {
        if let Some(place) = first_wrong_param(alloc, 0, text)? {
            return Err(ValueRefusal::BadValue { place });
        }
        let items = params_in(alloc, text)?;
        Ok(Params { items })
    }

    /// Puts the params on a page, with single spaces between them.
    pub fn put(&self, page: &mut Page)
        ensures { page.new ≡ with_text page.old (its.params_text self.now) }
    {
        put_joined(page, &self.items, b' ');
    }

    /// Appends the params, with single spaces between them. Without memory `out` stays as it was.
    ///
    /// # Errors
    /// `Memory` is want of memory.
    pub fn push(&self, out: &mut Vec<u8>) -> Result<(), Memory>
        ensures ok { OnOk result (out.new.items ≡ out.old.items ++ its.params_text self.now) }
        ensures err { OnErr result (out.new.items ≡ out.old.items) }
        ensures room { vec_len out.old + length (its.params_text self.now) ≤ vec_capacity out.old → IsOk result }
        ensures capacity { vec_capacity out.old ≤ vec_capacity out.new }
    {
        push_joined(&self.items, b' ', out)
    }
}
