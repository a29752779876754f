// Low medians of numbers in ascending order.
ghost use Rattle.std.specs.{Prelude.{◌≡◌, ◌<◌, ℕ, ℤ, pos, List, length}, List.Sorted.{IsPermutation, IsSorted}};
ghost use Rattle.std.specs.Ordering.{nat_cmp, int_cmp};
ghost use Rattle.count_terms.specs.{Counts.low_median, Medians.low_median_by};

/// The low median of each list that has these members, which stand here in ascending order: a member with at most half of
/// the others below it, rounded down, and more than that at or below it. It takes no memory.
pub fn low_median_u64(sorted: &[u64]) -> u64
    requires some { 0 < length sorted.now }
    requires ascending { IsSorted nat_cmp sorted.now }
    ensures { (list : List ℕ) → IsPermutation list sorted.now → result ≡ low_median list }
{
    let middle = (sorted.len() - 1) / 2;
    sorted[middle]
}

/// The same of numbers that may be negative.
pub fn low_median_i32(sorted: &[i32]) -> i32
    requires some { 0 < length sorted.now }
    requires ascending { IsSorted int_cmp sorted.now }
    ensures { (list : List ℤ) → IsPermutation list sorted.now → result ≡ low_median_by int_cmp (pos 0) list }
{
    sorted[(sorted.len() - 1) / 2]
}
