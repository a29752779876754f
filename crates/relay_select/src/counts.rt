// Majorities.
ghost use Rattle.std.specs.Prelude.{◌≡◌};
ghost use Rattle.count_terms.specs.Counts as counts;

/// Whether so many are more than half of a roster.
#[tactic(auto, using(crate::proofs::Majorities::more_than_half))]
pub fn over(count: u64, roster: u32) -> bool
    ensures { result ≡ counts.over count roster }
{
    roster as u64 / 2 < count
}
