// The fewest ranges of the numbers whose bits are set.
ghost use Rattle.std.specs.Prelude.{◌≡◌, ◌+◌, ◌<◌, ◌≤◌, drop};
ghost use Rattle.list_values.specs.Masks as masks;
ghost use Rattle.list_values.specs.NumberSets as sets;

use crate::mask::is_set;
use crate::number_range::NumberRange;

/// Ranges, from a place of their list on.
#[derive(Drop)]
pub(crate) struct Runs {
    pub(crate) ranges: [NumberRange; 64],
    pub(crate) start: usize,
}

/// The fewest ranges of the numbers whose bits are set.
pub(crate) fn runs_of(mask: u64) -> Runs
    ensures value { drop result.start result.ranges ≡ sets.ranges_of (masks.numbers_of mask) }
    ensures within { result.start ≤ 64 }
{
    let mut runs = Runs {
        ranges: [NumberRange { low: 0, high: 0 }; 64],
        start: 64,
    };
    let mut left = 64u8;
    'numbers: while left > 0 {
        left -= 1;
        if is_set(mask, left) {
            put_in_front(&mut runs, left);
        }
    }
    runs
}

/// Puts a number in front of ranges of later ones.
fn put_in_front(runs: &mut Runs, number: u8)
    requires number { number < 64 }
    requires room { number < runs.old.start }
    requires within { runs.old.start ≤ 64 }
    ensures value { drop runs.new.start runs.new.ranges ≡ sets.with_number number (drop runs.old.start runs.old.ranges) }
    ensures room { number ≤ runs.new.start }
    ensures within { runs.new.start ≤ 64 }
{
    let start = runs.start;
    if start < 64 && number + 1 == runs.ranges[start].low {
        runs.ranges[start].low = number;
        return;
    }
    runs.start = start - 1;
    runs.ranges[start - 1] = NumberRange {
        low: number,
        high: number,
    };
}
