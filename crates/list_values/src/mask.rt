// Sets of numbers from 0 to 63 as the bits of a number.
ghost use Rattle.std.specs.Prelude.{◌≡◌, ◌<◌, ◌≤◌, ◌==◌, ◌||◌, ℕ};
ghost use Rattle.list_values.specs.Masks as masks;
ghost use Rattle.list_values.specs.NumberSets as sets;

use crate::number_range::NumberRange;

/// Whether the bit of a number is set.
#[tactic(auto, using(crate::proofs::Bits::shifted))]
pub(crate) fn is_set(mask: u64, number: u8) -> bool
    requires { number < 64 }
    ensures { result ≡ masks.is_set mask number }
{
    (mask >> number) & 1 == 1
}

/// The bits of the numbers of a range.
pub(crate) fn mask_of(range: NumberRange) -> u64
    requires order { range.low ≤ range.high }
    requires small { range.high < 64 }
    ensures { (number : ℕ) → number < 64 → masks.is_set result number ≡ sets.in_range range number }
{
    (u64::MAX >> (63 - range.high)) & (u64::MAX << range.low)
}
