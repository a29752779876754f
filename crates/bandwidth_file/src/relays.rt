// The measured bandwidths of relays by their identities.
ghost use Rattle.std.specs.{Prelude.{◌≡◌, ◌==◌, ◌+◌, ◌++◌, length, [], IfOk, OnOk}, List.flat_map};
ghost use Rattle.bandwidth_file.specs.Relays as its;
ghost use Rattle.bandwidth_file.specs.{Texts.relay_text, Lending.{HasRow, one_if_new}};

use crate::said::Row;
use dir_bytes::{Memory, push_decimal};
use dir_values::Fingerprint;
use std::alloc::Global;
use std::collections::BTreeMap;
use std::marker::Model;

/// Bandwidths in kilobytes per second by identities. Contracts see them as a list that ascends by identity.
#[derive(Drop)]
pub struct Relays {
    map: BTreeMap<Fingerprint, u32>,
}

impl Model for Relays {
    ghost use Rattle.std.specs.Prelude.{List, ℕ};
    ghost use Rattle.dir_values.specs.declared.digest.Fingerprint.{Fingerprint};

    ghost Value = { List (Fingerprint × ℕ) };

    ghost view = { λ s. s.map.entries };
}

impl Relays {
    /// No relays.
    pub fn new(alloc: Global) -> Relays
        ensures { result ≡ [] }
    {
        Relays {
            map: BTreeMap::new(alloc),
        }
    }

    /// How many relays there are.
    pub fn len(&self) -> usize
        ensures value { result ≡ length self.now }
        ensures ascending { its.Ascend self.now }
    {
        self.map.len()
    }

    /// Whether there is no relay.
    pub fn is_empty(&self) -> bool
        ensures { result ≡ (length self.now == 0) }
    {
        self.map.is_empty()
    }

    /// The bandwidth of an identity, if it has one. It is found by halves.
    pub fn get(&self, identity: &Fingerprint) -> Option<u32>
        ensures { result ≡ its.bandwidth_in self.now identity.now }
    {
        self.map.get(identity).copied()
    }

    /// Gives an identity a bandwidth, in the place of the one before.
    ///
    /// # Errors
    /// `Memory` is want of memory.
    pub(crate) fn put(&mut self, row: Row) -> Result<(), Memory>
        ensures value { OnOk result (HasRow self.old row self.new) }
        ensures len { OnOk result (length self.new ≡ length self.old + one_if_new self.old row.identity) }
    {
        self.map.insert(row.identity, row.bandwidth)?;
        Ok(())
    }

    /// The identities and their bandwidths, in ascending order.
    ///
    /// # Errors
    /// `Memory` is want of memory.
    pub fn rows(&self, alloc: Global) -> Result<Vec<(Fingerprint, u32)>, Memory>
        ensures { IfOk result (λ rows. rows.items ≡ self.now) }
    {
        let mut rows = Vec::new(alloc);
        for (identity, bandwidth) in &self.map {
            rows.push((*identity, *bandwidth))?;
        }
        Ok(rows)
    }

    /// Appends a line for each relay, ascending by identity.
    ///
    /// # Errors
    /// `Memory` is want of memory.
    pub(crate) fn push(&self, out: &mut Vec<u8>) -> Result<(), Memory>
        ensures { OnOk result (out.new.items ≡ out.old.items ++ flat_map relay_text self.now) }
    {
        for (identity, bandwidth) in &self.map {
            push_relay(out, identity, *bandwidth)?;
        }
        Ok(())
    }
}

/// Appends the line of a relay.
fn push_relay(out: &mut Vec<u8>, identity: &Fingerprint, bandwidth: u32) -> Result<(), Memory>
    ensures { OnOk result (out.new.items ≡ out.old.items ++ relay_text (identity.now, bandwidth)) }
{
    out.extend_from_slice(b"node_id=$")?;
    identity.push(out)?;
    out.extend_from_slice(b" bw=")?;
    push_decimal(out, bandwidth as u64)?;
    out.push(b'\n')?;
    Ok(())
}
