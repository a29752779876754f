// Values by names that stand elsewhere.
ghost use Rattle.std.specs.Prelude.{◌≡◌, [], IfOk, OnOk};
ghost use Rattle.list_values.specs.Maps as maps;

use crate::named::Named;
use dir_bytes::{Memory, Text};
use std::alloc::Global;
use std::collections::BTreeMap;
use std::marker::Model;

/// Values by their names, in ascending order of the names' bytes. The names are borrowed from where they stand.
#[derive(Drop)]
pub(crate) struct NameMap<'a, V> {
    map: BTreeMap<&'a [u8], V>,
}

impl<'a, V> Model for NameMap<'a, V> {
    ghost use Rattle.std.specs.Prelude.{List};
    ghost use Rattle.list_values.specs.{declared.named.Named.Named, Maps.Ascend, Lending.entries_in};

    ghost Value = { List (Named V) };

    ghost view = { λ s. entries_in s.map.entries };

    ghost invariant = { λ s. Ascend (entries_in s.map.entries) };
}

impl<'a, V: Copy + Drop> NameMap<'a, V> {
    /// No values.
    pub(crate) fn new(alloc: Global) -> NameMap<'a, V>
        ensures { result ≡ [] }
    {
        NameMap {
            map: BTreeMap::new(alloc),
        }
    }

    /// Puts in a value for a name, in the place of the one before.
    ///
    /// # Errors
    /// `Memory` is want of memory.
    pub(crate) fn put(&mut self, name: &'a [u8], value: V) -> Result<(), Memory>
        ensures { OnOk result (self.new ≡ maps.with_value self.old name.now value) }
    {
        self.map.insert(name, value)?;
        Ok(())
    }

    /// The value for a name, if there is one.
    pub(crate) fn get(&self, name: &[u8]) -> Option<V>
        ensures { result ≡ maps.value_at self.now name.now }
    {
        self.map.get(name).copied()
    }

    /// The values with copies of their names, in the order of the names.
    ///
    /// # Errors
    /// `Memory` is want of memory.
    pub(crate) fn copies(&self, alloc: Global) -> Result<Vec<Named<V>>, Memory>
        ensures value { IfOk result (λ copies. copies.items ≡ self.now) }
        ensures ascending { IfOk result (λ copies. maps.Ascend copies.items) }
    {
        let mut copies = Vec::with_capacity(alloc, self.map.len())?;
        for (name, value) in &self.map {
            let name = Text::copy_of(alloc, name)?;
            copies.push(Named {
                name,
                value: *value,
            })?;
        }
        Ok(copies)
    }
}
