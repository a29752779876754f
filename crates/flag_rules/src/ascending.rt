// Numbers in ascending order.
ghost use Rattle.std.specs.{Prelude.{◌≡◌, ◌<◌, List, ℕ}, List.Sorted.IsPermutation};
ghost use Rattle.count_terms.specs.Counts as places;

use std::marker::Model;

/// Numbers in ascending order. Contracts see them as their list.
#[derive(Debug, Drop)]
pub(crate) struct Ascending {
    values: Vec<u64>,
}

impl Model for Ascending {
    ghost use Rattle.std.specs.{Prelude.{List, ℕ}, List.Sorted.IsNonDecreasing};

    ghost Value = { List ℕ };

    ghost view = { λ s. s.values.items };

    ghost invariant = { λ s. IsNonDecreasing s.values.items };
}

impl Ascending {
    /// The numbers, sorted.
    pub(crate) fn new(values: Vec<u64>) -> Ascending
        ensures { IsPermutation values.items result }
    {
        let mut values = values;
        values.sort_unstable();
        Ascending { values }
    }

    /// Their low median; 0 where there is none.
    pub(crate) fn low_median(&self) -> u64
        ensures { (list : List ℕ) → IsPermutation list self.now → result ≡ places.low_median list }
    {
        self.member_at(self.values.len().saturating_sub(1) / 2)
    }

    /// The member that so many eighths of them stand before; 0 where there is none.
    pub(crate) fn eighth(&self, eighths: usize) -> u64
        requires { eighths < 8 }
        ensures { (list : List ℕ) → IsPermutation list self.now → result ≡ places.eighth_of eighths list }
    {
        self.member_at(eighths * self.values.as_slice().len() / 8)
    }

    /// The member at a place, from 0; 0 where there is none.
    fn member_at(&self, place: usize) -> u64
        ensures { (list : List ℕ) → IsPermutation list self.now → result ≡ places.member_at place list }
    {
        match self.values.get(place) {
            Some(value) => *value,
            None => 0,
        }
    }
}
