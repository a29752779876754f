// Values that votes choose among.
ghost use Rattle.std.specs.{Prelude.◌≡◌, declared.cmp.Ordering.{Ordering, TheVariants.Equal}, Cmp.IsTotalOrder};

use std::cmp::Ordering;

/// A value that votes choose among: of values that stand as often the greatest is chosen. One order says which two are the
/// same and which of two is the greater.
pub trait Ballot {
    ghost order: { Self → Self → Ordering };

    /// Compares two values.
    fn compare(&self, other: &Self) -> Ordering
        ensures { result ≡ order self.now other.now };

    ghost total: { IsTotalOrder order };

    ghost ties: { (a b : Self) → order a b ≡ Equal → a ≡ b };
}
