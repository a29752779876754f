// A set of identities.
ghost use Rattle.std.specs.Prelude.{◌≡◌, not, OnOk, OnErr};
ghost use Rattle.std.specs.FinSet as set;

use dir_values::Fingerprint;
use std::alloc::{AllocError, Global};
use std::collections::BTreeSet;
use std::marker::Model;

/// A set of identities. A contract sees it as the finite set of their bytes.
#[derive(Drop)]
pub struct IdentitySet {
    alloc: Global,
    keys: BTreeSet<[u8; 20]>,
}

impl Model for IdentitySet {
    ghost use Rattle.std.specs.{Prelude.{ℕ, List}, Coded.{coded_ℕ, coded_list}, Cmp.Lexicographic.slice_cmp};
    ghost use Rattle.std.specs.Ordering.{nat_cmp};
    ghost use Rattle.std.specs.FinSet as set;

    ghost Value = { set.FinSet (slice_cmp nat_cmp) };

    ghost coded = { set.code (coded_list coded_ℕ) };

    ghost view = { λ s. set.from_list s.keys.keys };
}

impl IdentitySet {
    /// The empty set.
    pub fn new(alloc: Global) -> IdentitySet
        ensures { result ≡ set.empty }
    {
        IdentitySet {
            alloc,
            keys: BTreeSet::new(alloc),
        }
    }

    /// The allocator that it takes its memory from.
    pub fn alloc(&self) -> Global {
        self.alloc
    }

    /// Whether an identity is in it.
    pub fn contains(&self, identity: &Fingerprint) -> bool
        ensures { result ≡ set.contains self.now identity.now.0 }
    {
        self.keys.contains(&identity.0)
    }

    /// Adds an identity. One that is there already changes nothing.
    ///
    /// # Errors
    /// There was no memory; the set stays as it was.
    pub fn insert(&mut self, identity: &Fingerprint) -> Result<(), AllocError>
        ensures ok { OnOk result (self.new ≡ set.insert self.old identity.now.0) }
        ensures err { OnErr result (self.new ≡ self.old) }
    {
        self.keys.insert(identity.0)?;
        Ok(())
    }
}
