// Microdescriptors by the digests that a consensus names.
ghost use Rattle.std.specs.Prelude.{◌≡◌, [], IfOk, OnOk, Some, option_map};
ghost use Rattle.mirror_core.specs.Rows as rows;

use crate::taken::Taken;
use bytes::Bytes;
use dir_bytes::Memory;
use sha2::{Digest, Sha256};
use std::alloc::Global;
use std::collections::BTreeMap;
use std::marker::Model;

/// A row for each digest that a consensus names, with the microdescriptor where it is held, which shares the bytes that it was
/// read from. Contracts see it as the list of the rows, ascending by digest.
#[derive(Drop)]
pub struct Shelf {
    rows: BTreeMap<[u8; 32], Option<Bytes>>,
}

impl Model for Shelf {
    ghost use Rattle.mirror_core.specs.Rows.{Rows};

    ghost Value = { Rows };

    ghost view = { λ s. s.rows.entries };
}

/// The same bytes, if there are some.
fn share(text: Option<&Bytes>) -> Result<Option<Bytes>, Memory>
    ensures { IfOk result (λ shared. shared ≡ option_map (λ text. text.now) text.entry) }
{
    match text {
        None => Ok(None),
        Some(text) => Ok(Some(text.clone()?)),
    }
}

impl Shelf {
    /// No rows.
    pub fn new(alloc: Global) -> Shelf
        ensures { result ≡ [] }
    {
        Shelf {
            rows: BTreeMap::new(alloc),
        }
    }

    /// The microdescriptor with a digest, if it is held.
    fn held(&self, digest: &[u8; 32]) -> Option<&Bytes>
        ensures { option_map (λ text. text.now) result ≡ rows.micro_of self.now digest.now }
    {
        match self.rows.get(digest) {
            Some(Some(text)) => Some(text),
            _ => None,
        }
    }

    /// The microdescriptor with a digest, if it is held. Takes no memory.
    pub fn micro(&self, digest: &[u8; 32]) -> Option<&[u8]>
        ensures { option_map (λ text. text.now) result ≡ rows.micro_of self.now digest.now }
    {
        match self.held(digest) {
            Some(text) => Some(text.as_slice()),
            None => None,
        }
    }

    /// Adds a row for a digest.
    fn add(&mut self, digest: [u8; 32], text: Option<Bytes>) -> Result<(), Memory>
        ensures ok { OnOk result (self.new ≡ rows.with_row self.old digest text) }
    {
        self.rows.insert(digest, text)?;
        Ok(())
    }

    /// The rows of some digests, each with what is held of it here.
    ///
    /// # Errors
    /// `Memory` is want of memory.
    pub fn over(&self, alloc: Global, digests: &[[u8; 32]]) -> Result<Shelf, Memory>
        ensures { IfOk result (λ shelf. shelf ≡ rows.rows_of self.now digests.now) }
    {
        let mut shelf = Shelf::new(alloc);
        'digests: for digest in digests {
            let text = share(self.held(digest))?;
            shelf.add(*digest, text)?;
        }
        Ok(shelf)
    }

    /// What would come of a microdescriptor with a digest.
    fn taking(&self, digest: &[u8; 32]) -> Taken
        ensures { result ≡ rows.taken_by (rows.row_of self.now digest.now) }
    {
        match self.rows.get(digest) {
            None => Taken::Unwanted,
            Some(Some(_)) => Taken::Had,
            Some(None) => Taken::Kept,
        }
    }

    /// Puts a microdescriptor into the row of its digest, which is there.
    fn put(&mut self, digest: [u8; 32], text: Bytes)
        requires { rows.taken_by (rows.row_of self.old digest) ≡ Taken.Kept }
        ensures { self.new ≡ rows.with_row self.old digest (Some text) }
    {
        match self.rows.insert(digest, Some(text)) {
            Ok(_) => (),
            Err(_) => unreachable!(),
        }
    }

    /// Keeps a microdescriptor, where its digest has a row that has none. Takes no memory.
    pub fn take(&mut self, text: Bytes) -> Taken
        ensures taken { result ≡ rows.taking_outcome self.old text }
        ensures rows { self.new ≡ rows.rows_after self.old text }
    {
        let digest: [u8; 32] = Sha256::digest(&text);
        let taken = self.taking(&digest);
        match taken {
            Taken::Kept => self.put(digest, text),
            Taken::Had | Taken::Unwanted => (),
        }
        taken
    }
}
