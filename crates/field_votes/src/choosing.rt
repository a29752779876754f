// The value that stands most often.
ghost use Rattle.std.specs.Prelude.{◌≡◌, ◌<◌, ◌≤◌, ◌↔◌, [], Some, IsTrue, IfSome, is_none, option_and_then, length};
ghost use Rattle.std.specs.Prelude.{slice_get};
ghost use Rattle.count_terms.specs.Choosing as choosing;
ghost use Rattle.field_votes.specs.Leading as leading;

use crate::ballot::Ballot;

/// The place of the value that stands most often, and of those that stand as often the greatest. None exactly where there is
/// no value. It takes no memory.
pub fn chosen<T: Ballot>(values: &[T]) -> Option<usize>
    ensures value { option_and_then (λ place. slice_get values.now place) result ≡ choosing.chosen T.order values.now }
    ensures within { IfSome result (λ place. place < length values.now) }
    ensures none { IsTrue (is_none result) ↔ (values.now ≡ []) }
{
    leader(values)
}

/// The place of the value that no value before it or behind it outdoes.
fn leader<T: Ballot>(values: &[T]) -> Option<usize>
    ensures value { option_and_then (λ place. slice_get values.now place) result ≡ leading.leader T.order values.now values.now }
    ensures within { IfSome result (λ place. place < length values.now) }
    ensures none { IsTrue (is_none result) ↔ (values.now ≡ []) }
{
    let mut best = None;
    'values: for i in 0..values.len() {
        best = Some(after(values, best, i));
    }
    best
}

/// The place of the value that leads once one more was seen.
fn after<T: Ballot>(values: &[T], best: Option<usize>, i: usize) -> usize
    requires best { IfSome best (λ place. place < length values.now) }
    requires value { i < length values.now }
    ensures value { (value : _) → slice_get values.now i ≡ Some value → slice_get values.now result ≡ leading.after T.order values.now (option_and_then (λ place. slice_get values.now place) best) value }
    ensures within { result < length values.now }
{
    match best {
        None => i,
        Some(place) => {
            if outdoes(values, &values[i], &values[place]) {
                i
            } else {
                place
            }
        }
    }
}

/// Whether a value stands more often than another, or as often and is the greater.
fn outdoes<T: Ballot>(values: &[T], value: &T, other: &T) -> bool
    ensures { result ≡ choosing.outdoes T.order values.now value.now other.now }
{
    let order = value.compare(other);
    if order.is_eq() {
        return false;
    }
    let count = times(values, value);
    let others = times(values, other);
    others < count || (others == count && order.is_gt())
}

/// How often a value stands among values.
fn times<T: Ballot>(values: &[T], value: &T) -> usize
    ensures count { result ≡ choosing.times T.order values.now value.now }
    ensures within { result ≤ length values.now }
{
    let mut count = 0;
    'values: for other in values {
        if value.compare(other).is_eq() {
            count += 1;
        }
    }
    count
}
