// Fractions of the scale, what they leave of it, and its range.
ghost use Rattle.std.specs.Prelude.{◌≡◌, ◌<◌, ◌≤◌, ◌^◌, pos, ◌-ℤ◌, unsigned_abs};
ghost use Rattle.bw_weights.specs.Fractions as fractions;
ghost use Rattle.bw_weights.specs.Ranges as ranges;

/// The fraction `(plus - minus) / whole` of the scale, truncated toward zero.
pub fn fraction(scale: u32, plus: u64, minus: u64, whole: u64) -> i128
    requires { 0 < whole }
    ensures value { result ≡ fractions.fraction (pos scale) (pos plus -ℤ pos minus) (pos whole) }
    ensures size { unsigned_abs result < 2 ^ 96 }
{
    i128::from(scale) * (i128::from(plus) - i128::from(minus)) / i128::from(whole)
}

/// A third of the scale, truncated toward zero.
pub fn third(scale: u32) -> i128
    ensures { result ≡ fractions.third (pos scale) }
{
    i128::from(scale) / 3
}

/// What a weight leaves of the scale.
pub fn rest(scale: u32, weight: i128) -> i128
    requires { unsigned_abs weight < 2 ^ 96 }
    ensures value { result ≡ pos scale -ℤ weight }
    ensures size { unsigned_abs result < 2 ^ 97 }
{
    i128::from(scale) - weight
}

/// What two weights leave of the scale.
pub fn rest_of_two(scale: u32, first: i128, second: i128) -> i128
    requires first { unsigned_abs first < 2 ^ 96 }
    requires second { unsigned_abs second < 2 ^ 96 }
    ensures { result ≡ pos scale -ℤ first -ℤ second }
{
    i128::from(scale) - first - second
}

/// Half of what a weight leaves of the scale, truncated toward zero.
pub fn half_of_rest(scale: u32, weight: i128) -> i128
    requires { unsigned_abs weight < 2 ^ 96 }
    ensures { result ≡ fractions.half (pos scale -ℤ weight) }
{
    rest(scale, weight) / 2
}

/// Whether a weight lies in 0 to the scale.
pub fn is_within(scale: u32, weight: i128) -> bool
    ensures { result ≡ ranges.is_within scale weight }
{
    0 <= weight && weight <= i128::from(scale)
}

/// A weight brought into 0 to the scale.
pub fn nearest_within(scale: u32, weight: i128) -> u32
    ensures value { result ≡ ranges.nearest_within scale weight }
    ensures range { result ≤ scale }
{
    if weight < 0 {
        0
    } else if weight > i128::from(scale) {
        scale
    } else {
        weight as u32
    }
}
