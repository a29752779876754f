// The digests of microdescriptors.
ghost use Rattle.std.specs.Prelude.{◌≡◌};

use dir_values::Digest2;
use field_votes::Ballot;
use std::cmp::Ordering;
use std::marker::Model;

/// The digest of a microdescriptor.
#[derive(Drop)]
pub struct Micro {
    digest: Digest2,
}

impl Model for Micro {
    ghost use Rattle.dir_values.specs.declared.digest.Digest2.{Digest2};

    ghost Value = { Digest2 };

    ghost view = { λ m. m.digest };
}

impl Micro {
    /// The digest.
    pub fn new(digest: Digest2) -> Micro
        ensures { result ≡ digest }
    {
        Micro { digest }
    }

    /// The digest.
    pub fn digest(&self) -> Digest2
        ensures { result ≡ self.now }
    {
        self.digest
    }
}

impl Ballot for Micro {
    ghost use Rattle.compute_terms.specs.Lines.{digest_order};
    ghost use Rattle.relay_select.specs.TupleOrder.{digest_total, digests_tie};

    ghost order = { digest_order };

    ghost total = { digest_total };

    ghost ties = { digests_tie };

    fn compare(&self, other: &Self) -> Ordering {
        self.digest.0.as_slice().cmp(other.digest.0.as_slice())
    }
}
