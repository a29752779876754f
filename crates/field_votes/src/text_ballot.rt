// Texts that are chosen by their bytes.
ghost use Rattle.std.specs.Prelude.{◌≡◌, ◌<◌, ◌↔◌, [], IsTrue, IfSome, is_none, option_and_then, length, slice_get};
ghost use Rattle.count_terms.specs.Choosing.{chosen, text_order};

use crate::ballot::Ballot;
use crate::choosing;
use dir_bytes::Text;
use std::cmp::Ordering;

impl Ballot for Text {
    ghost use Rattle.count_terms.specs.Choosing.{text_order};
    ghost use Rattle.dir_values.proofs.VersionOrders.{texts_tie};
    ghost use Rattle.std.proofs.lemmas.Cmp.{nat_list_cmp_total};

    ghost order = { text_order };

    ghost total = { nat_list_cmp_total };

    ghost ties = { texts_tie };

    fn compare(&self, other: &Self) -> Ordering {
        self.as_bytes().cmp(other.as_bytes())
    }
}

/// A place of the text that stands most often, and of those that stand as often of the one with the greater bytes. None
/// exactly where there is no text. It takes no memory.
pub fn most_common(values: &[Text]) -> Option<usize>
    ensures value { option_and_then (λ place. slice_get values.now place) result ≡ chosen text_order values.now }
    ensures within { IfSome result (λ place. place < length values.now) }
    ensures none { IsTrue (is_none result) ↔ (values.now ≡ []) }
{
    choosing::chosen(values)
}
