// The low median of a few values.
ghost use Rattle.std.specs.{Prelude.{◌≡◌, count_by, nat_lt, nat_le}, List.find};
ghost use Rattle.count_terms.specs.Counts as counts;

/// The low median of some values, and 0 of none.
#[tactic(auto, unfolding(count_terms::specs::Counts::member_at))]
pub fn low_median(values: &[u32]) -> u32
    ensures { result ≡ counts.low_median values.now }
{
    low_of(values).unwrap_or(0)
}

/// The first value that is the low median.
fn low_of(values: &[u32]) -> Option<u32>
    ensures { result ≡ find (counts.stands_at (counts.middle values.now) values.now) values.now }
{
    'values: for value in values {
        if is_low_median(values, *value) {
            return Some(*value);
        }
    }
    None
}

/// Whether a value is the low median.
fn is_low_median(values: &[u32], value: u32) -> bool
    ensures { result ≡ counts.stands_at (counts.middle values.now) values.now value }
{
    let middle = values.len().saturating_sub(1) / 2;
    count_below(values, value) <= middle && middle < count_within(values, value)
}

/// How many values are less than this one.
fn count_below(values: &[u32], value: u32) -> usize
    ensures { result ≡ count_by (λ x. nat_lt x value) values.now }
{
    values.iter().filter(|x| **x < value).count()
}

/// How many values are at most this one.
fn count_within(values: &[u32], value: u32) -> usize
    ensures { result ≡ count_by (λ x. nat_le x value) values.now }
{
    values.iter().filter(|x| **x <= value).count()
}
