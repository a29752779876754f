// The `v` line of an entry.
ghost use Rattle.std.specs.Prelude.{◌≡◌};

use crate::ballot::Ballot;
use dir_values::compare_named;
use std::cmp::Ordering;
use std::marker::Model;

/// The text of a `v` line. The greater is the more recent version.
#[derive(Drop)]
pub struct VersionLine<'a> {
    text: &'a [u8],
}

impl<'a> Model for VersionLine<'a> {
    ghost use Rattle.std.specs.Prelude.{List, ℕ};

    ghost Value = { List ℕ };

    ghost view = { λ l. l.text.now };
}

impl<'a> VersionLine<'a> {
    /// The line of this text.
    pub fn new(text: &'a [u8]) -> VersionLine<'a>
        ensures { result ≡ text.now }
    {
        VersionLine { text }
    }

    /// The text.
    pub fn text(&self) -> &'a [u8]
        ensures { result.now ≡ self.now }
    {
        self.text
    }
}

impl<'a> Ballot for VersionLine<'a> {
    ghost use Rattle.dir_values.{specs.Versions.named_order, proofs.VersionOrders.{named_total, named_tie}};

    ghost order = { named_order };

    ghost total = { named_total };

    ghost ties = { named_tie };

    fn compare(&self, other: &Self) -> Ordering {
        compare_named(self.text(), other.text())
    }
}
