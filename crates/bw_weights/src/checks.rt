// Where weights stand in a line from method 34 on.
ghost use Rattle.std.specs.Prelude.{◌≡◌, ◌+◌, ◌*◌, ◌<◌, ◌^◌, IfSome};
ghost use Rattle.bw_weights.specs.{Balance.GivesOutEachClass, Sums.AreInRange, Weights.{AreFractions, weights_of}};
ghost use Rattle.bw_weights.specs.Checks as checks;

use crate::cases::comparable_with_exits;
use crate::position_weights::Weights;
use crate::sums::Sums;
use crate::table::{shares_of, weights};

/// Whether the row without exits in the middle is taken.
fn is_without_exits(sums: &Sums, scale: u32) -> bool
    requires { AreInRange sums.now }
    ensures { result ≡ checks.is_without_exits sums.now scale }
{
    sums.is_scarce(sums.g)
        && sums.is_scarce(sums.e)
        && !sums.are_unequal()
        && !comparable_with_exits(sums, scale).are_within(scale)
}

/// What two classes have together, each by its weight.
fn weighted_sum(first: u32, bandwidth: u64, second: u32, other: u64) -> u128
    ensures value { result ≡ first * bandwidth + second * other }
    ensures most { result < 2 ^ 97 }
{
    u128::from(first) * u128::from(bandwidth) + u128::from(second) * u128::from(other)
}

/// Whether the weighted bandwidth in a guard's position and that in an exit's differ by at most ten thirds of all.
fn is_balanced(sums: &Sums, weights: &Weights) -> bool
    requires { AreInRange sums.now }
    ensures { result ≡ checks.is_balanced sums.now weights.now }
{
    let guards = weighted_sum(weights.wgg, sums.g, weights.wgd, sums.d);
    let exits = weighted_sum(weights.wee, sums.e, weights.wed, sums.d);
    let most = u128::from(10 * sums.total() / 3);
    guards <= exits + most && exits <= guards + most
}

/// Whether these weights, which are those at these sums and this scale, stand in a line.
fn have_line(sums: &Sums, scale: u32, weights: &Weights) -> bool
    requires sums { AreInRange sums.now }
    requires weights { weights.now ≡ weights_of sums.now scale }
    ensures { result ≡ checks.have_line sums.now scale }
{
    !is_without_exits(sums, scale)
        || (shares_of(sums, scale).are_within(scale) && is_balanced(sums, weights))
}

/// The weights at these sums and this scale, where they stand in a line from method 34 on: C tor leaves out those of the row
/// without exits in the middle of which one is out of range, or which do not balance guards and exits.
pub fn stated_weights(sums: &Sums, scale: u32) -> Option<Weights>
    requires sums { AreInRange sums.now }
    requires scale_least { 0 < scale }
    requires scale_most { scale < 2 ^ 31 }
    ensures value { result ≡ checks.stated_weights sums.now scale }
    ensures range { IfSome result AreFractions }
    ensures classes { IfSome result GivesOutEachClass }
{
    let weights = weights(sums, scale);
    if have_line(sums, scale, &weights) {
        Some(weights)
    } else {
        None
    }
}
