// The bandwidth of each class of relays.
ghost use Rattle.std.specs.Prelude.{◌≡◌, ◌≤◌, ◌^◌};

/// The bandwidth of the listed relays by their class: `g` of those that are guards alone, `e` of exits alone, `d` of
/// those that are both, and `m` of those that are neither. A relay with `BadExit` is no exit. Each counts from 1.
#[derive(Clone, Copy, Debug, PartialEq, Eq)]
pub struct Sums {
    pub g: u64,
    pub m: u64,
    pub e: u64,
    pub d: u64,
}

impl Sums {
    ghost use Rattle.bw_weights.specs.Sums as sums;

    /// The bandwidth of all classes.
    pub fn total(&self) -> u64
        requires { sums.AreInRange self.now }
        ensures value { result ≡ sums.total_of self.now }
        ensures most { result ≤ 2 ^ 56 }
    {
        self.g + self.m + self.e + self.d
    }

    /// Whether a class with this bandwidth is scarce: it has less than a third of the whole.
    pub fn is_scarce(&self, bandwidth: u64) -> bool
        requires sums { sums.AreInRange self.now }
        requires bandwidth { bandwidth ≤ 2 ^ 55 }
        ensures { result ≡ sums.is_scarce bandwidth self.now }
    {
        3 * bandwidth < self.total()
    }

    /// Whether the scarcer of guards and exits has, with all that are both, less than the other.
    pub fn are_unequal(&self) -> bool
        requires { sums.AreInRange self.now }
        ensures { result ≡ sums.are_unequal self.now }
    {
        self.g.min(self.e) + self.d < self.g.max(self.e)
    }
}
