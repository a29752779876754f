// What is kept of the entries of a vote, as flat rows.
ghost use Rattle.std.specs.Prelude.{◌≡◌, ◌<◌, ◌^◌, ◌++◌, ◌∷◌, [], ℕ, List, true, OnOk, OnErr, IfOk, length, map};
ghost use Rattle.std.specs.Prelude.{slice_index_or};
ghost use Rattle.vote_terms.specs.Entries.{Ascending};
ghost use Rattle.vote_entries.specs.Entries.{entry_in};
ghost use Rattle.vote_entries.specs.Kept as kept;

use crate::entry::Entry;
use crate::row::{EntryRow, KeptMicro, Run, row_of, run_of};
use crate::said::{push_addresses, push_micros, relay_at};
use dir_values::Fingerprint;
use frame_terms::Taken;
use frame_values::{Span, Value};
use std::alloc::{AllocError, Global};
use std::marker::Model;
use vote_frame::VoteValue;

/// What is kept of the entries of a vote, ascending by identity. A contract sees it as a list with one value for each entry.
#[derive(Debug, Drop)]
pub struct Rows {
    rows: Vec<EntryRow>,
    addresses: Vec<Span>,
    micros: Vec<KeptMicro>,
}

impl Model for Rows {
    ghost use Rattle.std.specs.Prelude.{List, length};
    ghost use Rattle.vote_entries.specs.{Kept.KeptEntry, Rows.{AreRows, kept_rows}};

    ghost Value = { List KeptEntry };

    ghost view = { λ r. kept_rows r.addresses.items r.micros.items r.rows.items };

    ghost invariant = { λ r. AreRows (length r.addresses.items) (length r.micros.items) r.rows.items };
}

impl Rows {
    /// No entries; `count` is how many to take room for.
    ///
    /// # Errors
    /// There was no memory.
    pub fn with_room(alloc: Global, count: usize) -> Result<Rows, AllocError>
        ensures { IfOk result (λ rows. rows ≡ []) }
    {
        Ok(Rows {
            rows: Vec::with_capacity(alloc, count)?,
            addresses: Vec::new(alloc),
            micros: Vec::new(alloc),
        })
    }

    /// Whether an identity comes after those of all entries.
    fn is_after(&self, identity: &Fingerprint) -> bool
        ensures { result ≡ kept.is_after self.now identity.now }
    {
        match self.rows.last() {
            Some(row) => row.relay.identity.is_below(identity),
            None => true,
        }
    }

    /// Adds what is kept of an entry with these items.
    ///
    /// # Errors
    /// There was no memory.
    fn add(&mut self, taken: &[Taken<Value<VoteValue>>]) -> Result<(), AllocError>
        requires { kept.is_after self.old (kept.entry_of taken.now).relay.identity ≡ true }
        ensures ok { OnOk result (self.new ≡ self.old ++ kept.entry_of taken.now ∷ []) }
        ensures err { OnErr result (self.new ≡ self.old) }
    {
        let first_address = self.addresses.len();
        let first_micro = self.micros.len();
        push_addresses(&mut self.addresses, taken)?;
        push_micros(&mut self.micros, taken)?;
        let addresses = Run {
            start: first_address,
            end: self.addresses.len(),
        };
        let micros = Run {
            start: first_micro,
            end: self.micros.len(),
        };
        self.rows.push(row_of(taken, addresses, micros))?;
        Ok(())
    }

    /// Adds what is kept of an entry with these items, if its identity comes after those of all entries before it.
    ///
    /// # Errors
    /// There was no memory.
    pub fn push(&mut self, taken: &[Taken<Value<VoteValue>>]) -> Result<(), AllocError>
        ensures ok { OnOk result (self.new ≡ kept.with_entry self.old (kept.entry_of taken.now)) }
        ensures err { OnErr result (self.new ≡ self.old) }
    {
        if self.is_after(&relay_at(taken).identity) {
            self.add(taken)?;
        }
        Ok(())
    }

    /// How many entries there are.
    pub fn len(&self) -> usize
        ensures value { result ≡ length self.now }
        ensures ascending { (bytes : List ℕ) → Ascending (map (entry_in bytes) self.now) }
    {
        self.rows.len()
    }

    /// An entry, by its number from 0, whose texts stand in these bytes.
    pub fn entry<'a>(&'a self, bytes: &'a [u8], i: usize) -> Entry<'a>
        requires within { i < length self.now }
        requires short { length bytes.now < 2 ^ 62 }
        ensures { result ≡ slice_index_or (map (entry_in bytes.now) self.now) i result }
    {
        let row = &self.rows[i];
        let addresses = run_of(&self.addresses, row.addresses);
        let micros = run_of(&self.micros, row.micros);
        Entry::new(bytes, row, addresses, micros)
    }
}
