// The text of a line.
ghost use Rattle.std.specs.Prelude.{◌≡◌};

use crate::ballot::Ballot;
use std::cmp::Ordering;
use std::marker::Model;

/// The text of a line.
#[derive(Drop)]
pub struct Line<'a> {
    text: &'a [u8],
}

impl<'a> Model for Line<'a> {
    ghost use Rattle.std.specs.Prelude.{List, ℕ};

    ghost Value = { List ℕ };

    ghost view = { λ l. l.text.now };
}

impl<'a> Line<'a> {
    /// The line of this text.
    pub fn new(text: &'a [u8]) -> Line<'a>
        ensures { result ≡ text.now }
    {
        Line { text }
    }

    /// The text.
    pub fn text(&self) -> &'a [u8]
        ensures { result.now ≡ self.now }
    {
        self.text
    }
}

impl<'a> Ballot for Line<'a> {
    ghost use Rattle.std.proofs.lemmas.Cmp.{nat_list_cmp_total};
    ghost use Rattle.count_terms.specs.Choosing.{text_order};
    ghost use Rattle.dir_values.proofs.VersionOrders.{texts_tie};

    ghost order = { text_order };

    ghost total = { nat_list_cmp_total };

    ghost ties = { texts_tie };

    fn compare(&self, other: &Self) -> Ordering {
        self.text().cmp(other.text())
    }
}
