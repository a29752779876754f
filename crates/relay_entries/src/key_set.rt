// A set of Ed25519 keys.
ghost use Rattle.std.specs.{Prelude.{◌≡◌, not, IfOk, OnOk, OnErr}, Bool.OnFalse};
ghost use Rattle.std.specs.FinSet as set;

use std::alloc::{AllocError, Global};
use std::collections::BTreeSet;
use std::marker::Model;

/// A set of Ed25519 keys. A contract sees it as the finite set of them.
#[derive(Debug, Drop)]
pub struct KeySet {
    alloc: Global,
    keys: BTreeSet<[u8; 32]>,
}

impl Model for KeySet {
    ghost use Rattle.std.specs.{Prelude.{ℕ, List}, Coded.{coded_ℕ, coded_list}, Cmp.Lexicographic.slice_cmp};
    ghost use Rattle.std.specs.Ordering.{nat_cmp};
    ghost use Rattle.std.specs.FinSet as set;

    ghost Value = { set.FinSet (slice_cmp nat_cmp) };

    ghost coded = { set.code (coded_list coded_ℕ) };

    ghost view = { λ s. set.from_list s.keys.keys };
}

impl KeySet {
    /// The empty set.
    pub fn new(alloc: Global) -> KeySet
        ensures { result ≡ set.empty }
    {
        KeySet {
            alloc,
            keys: BTreeSet::new(alloc),
        }
    }

    /// The allocator that it takes its memory from.
    pub fn alloc(&self) -> Global {
        self.alloc
    }

    /// Adds a key, and tells whether it is new. One that is there already changes nothing.
    ///
    /// # Errors
    /// There was no memory; the set stays as it was.
    pub fn insert(&mut self, key: [u8; 32]) -> Result<bool, AllocError>
        ensures added { IfOk result (λ added. added ≡ not (set.contains self.old key)) }
        ensures ok { OnOk result (self.new ≡ set.insert self.old key) }
        ensures there { IfOk result (λ added. OnFalse added (self.new ≡ self.old)) }
        ensures err { OnErr result (self.new ≡ self.old) }
    {
        Ok(self.keys.insert(key)?)
    }
}
