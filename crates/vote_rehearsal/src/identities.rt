// A set of RSA identities.
ghost use Rattle.std.specs.Prelude.{◌≡◌, not, IfOk, OnOk};
ghost use Rattle.std.specs.FinSet as set;

use dir_values::Fingerprint;
use std::alloc::{AllocError, Global};
use std::collections::BTreeSet;
use std::marker::Model;

/// A set of RSA identities. Contracts see it as the finite set of their bytes.
#[derive(Drop)]
pub(crate) struct Identities {
    keys: BTreeSet<[u8; 20]>,
}

impl Model for Identities {
    ghost use Rattle.std.specs.{Prelude.{ℕ, List}, Coded.{coded_ℕ, coded_list}, Cmp.Lexicographic.slice_cmp};
    ghost use Rattle.std.specs.Ordering.{nat_cmp};
    ghost use Rattle.std.specs.FinSet as set;

    ghost Value = { set.FinSet (slice_cmp nat_cmp) };

    ghost coded = { set.code (coded_list coded_ℕ) };

    ghost view = { λ s. set.from_list s.keys.keys };
}

impl Identities {
    /// The empty set.
    pub(crate) fn new(alloc: Global) -> Identities
        ensures { result ≡ set.empty }
    {
        Identities {
            keys: BTreeSet::new(alloc),
        }
    }

    /// Adds an identity, and tells whether it is new.
    ///
    /// # Errors
    /// There was no memory.
    pub(crate) fn insert(&mut self, identity: &Fingerprint) -> Result<bool, AllocError>
        ensures added { IfOk result (λ added. added ≡ not (set.contains self.old identity.now.0)) }
        ensures ok { OnOk result (self.new ≡ set.insert self.old identity.now.0) }
    {
        Ok(self.keys.insert(identity.0)?)
    }
}
