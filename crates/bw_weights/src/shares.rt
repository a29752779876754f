// The seven weights of a case, before they are brought into range.
ghost use Rattle.std.specs.Prelude.{◌≡◌};

use crate::fraction::is_within;

/// The seven weights of a case, in units of the scale and of either sign. The first letter is the position, of a guard,
/// in the middle or of an exit, and the second the class of the relay.
#[derive(Clone, Copy, Debug, PartialEq, Eq)]
pub struct Shares {
    pub wgd: i128,
    pub wed: i128,
    pub wmd: i128,
    pub wme: i128,
    pub wmg: i128,
    pub wgg: i128,
    pub wee: i128,
}

impl Shares {
    ghost use Rattle.bw_weights.specs.Ranges as ranges;

    /// Whether the weights of a guard's position lie in 0 to the scale.
    fn guard_is_within(&self, scale: u32) -> bool
        ensures { result ≡ ranges.guard_is_within scale self.now }
    {
        is_within(scale, self.wgg) && is_within(scale, self.wgd)
    }

    /// Whether the weights in the middle lie in 0 to the scale.
    fn middle_is_within(&self, scale: u32) -> bool
        ensures { result ≡ ranges.middle_is_within scale self.now }
    {
        is_within(scale, self.wmg) && is_within(scale, self.wme) && is_within(scale, self.wmd)
    }

    /// Whether the weights of an exit's position lie in 0 to the scale.
    fn exit_is_within(&self, scale: u32) -> bool
        ensures { result ≡ ranges.exit_is_within scale self.now }
    {
        is_within(scale, self.wee) && is_within(scale, self.wed)
    }

    /// Whether all seven lie in 0 to the scale.
    pub fn are_within(&self, scale: u32) -> bool
        ensures { result ≡ ranges.are_within scale self.now }
    {
        self.guard_is_within(scale) && self.middle_is_within(scale) && self.exit_is_within(scale)
    }
}
