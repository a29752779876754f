// Sets of identities.
ghost use Rattle.std.specs.Prelude.{◌≡◌, ◌<◌, [], Some, OnOk, length, slice_get};
ghost use Rattle.dir_values.specs.FlagSets.{has_flag, with_flag};

use dir_bytes::Memory;
use dir_values::{Fingerprint, FlagSet};
use std::alloc::Global;
use std::marker::Model;

/// A set of identities, ascending. Contracts see the bytes of each.
#[derive(Drop)]
pub(crate) struct IdentitySet {
    set: FlagSet,
}

impl Model for IdentitySet {
    ghost use Rattle.std.specs.Prelude.{List, ℕ};

    ghost Value = { List (List ℕ) };

    ghost view = { λ s. s.set };
}

impl IdentitySet {
    /// The set of no identities.
    pub(crate) fn new(alloc: Global) -> IdentitySet
        ensures { result ≡ [] }
    {
        IdentitySet {
            set: FlagSet::new(alloc),
        }
    }

    /// How many identities there are.
    pub(crate) fn len(&self) -> usize
        ensures { result ≡ length self.now }
    {
        self.set.len()
    }

    /// The bytes of the i-th identity, from 0.
    pub(crate) fn identity(&self, i: usize) -> &[u8]
        requires { i < length self.now }
        ensures { slice_get self.now i ≡ Some result.now }
    {
        self.set.flag(i)
    }

    /// Puts an identity into its place, where it is not there yet. One behind all others is put there at once.
    pub(crate) fn insert(&mut self, alloc: Global, identity: &Fingerprint) -> Result<(), Memory>
        ensures { OnOk result (self.new ≡ with_flag self.old identity.now.0) }
    {
        self.set.insert(alloc, &identity.0)
    }

    /// Whether an identity is in the set. It is found by halves.
    pub(crate) fn has(&self, identity: &Fingerprint) -> bool
        ensures { result ≡ has_flag self.now identity.now.0 }
    {
        self.set.contains(&identity.0)
    }
}
