// What a policy says of a port, and how far down it says the same.
ghost use Rattle.std.specs.Prelude.{◌≡◌, ℕ, ◌≤◌, ◌<◌, Some, length, map, slice_get};
ghost use Rattle.exit_summary.specs.Policies as policies;

use crate::nets::is_every;
use dir_values::PolicyItem;

/// Ports of which a policy says the same, from the first of them on, and whether it accepts them.
#[derive(Clone, Copy, Debug)]
pub(crate) struct Stretch {
    pub(crate) first: u16,
    pub(crate) accepted: bool,
}

/// So many addresses may be rejected of a port that is accepted: 2^25, two nets of 8 bits.
const MOST_REJECTED: u64 = 33554432;

/// A stretch of ports that ends with this one. It walks the items once, up to the one that decides, and takes no memory.
/// `counts` says of each item how many addresses it rejects.
pub(crate) fn stretch_to(items: &[PolicyItem], counts: &[u64], port: u16) -> Stretch
    requires counts { counts.now ≡ map policies.rejects items.now }
    requires from_one { 1 ≤ port }
    ensures from_one { 1 ≤ result.first }
    ensures within { result.first ≤ port }
    ensures same { (other : ℕ) → result.first ≤ other → other ≤ port → policies.accepts_port items.now other ≡ result.accepted }
{
    let mut first = 1u16;
    let mut rejected = 0u64;
    for (i, item) in items.iter().enumerate() {
        if port < item.low {
            continue;
        }
        if item.high < port {
            first = first.max(item.high + 1);
            continue;
        }
        first = first.max(item.low);
        if is_every(&item.net) {
            let accepted = item.accept;
            return Stretch { first, accepted };
        }
        let count = count_at(counts, i);
        if count > MOST_REJECTED - rejected {
            return Stretch {
                first,
                accepted: false,
            };
        }
        rejected += count;
    }
    Stretch {
        first,
        accepted: true,
    }
}

/// The count at a place.
fn count_at(counts: &[u64], i: usize) -> u64
    requires { i < length counts.now }
    ensures { slice_get counts.now i ≡ Some result }
{
    counts[i]
}
