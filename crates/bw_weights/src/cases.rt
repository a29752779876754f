// The weights of each case.
ghost use Rattle.std.specs.Prelude.{◌≡◌};
ghost use Rattle.bw_weights.specs.Cases as cases;
ghost use Rattle.bw_weights.specs.Sums.{AreInRange};

use crate::fraction::{fraction, half_of_rest, rest, rest_of_two, third};
use crate::shares::Shares;
use crate::sums::Sums;

/// The weights where neither guards nor exits are scarce.
pub fn neither_scarce(sums: &Sums, scale: u32) -> Shares
    requires { AreInRange sums.now }
    ensures { result ≡ cases.shares_at cases.neither_scarce sums.now scale }
{
    let Sums { g, m, e, .. } = *sums;
    let wee = fraction(scale, e + g + m, 0, 3 * e);
    let wmg = fraction(scale, 2 * g, e + m, 3 * g);
    Shares {
        wgd: third(scale),
        wed: third(scale),
        wmd: third(scale),
        wme: rest(scale, wee),
        wmg,
        wgg: rest(scale, wmg),
        wee,
    }
}

/// The weights where both are scarce and differ by more than those that are both can level.
pub fn both_scarce_unequal(sums: &Sums, scale: u32) -> Shares
    ensures { result ≡ cases.shares_at cases.both_scarce_unequal sums.now scale }
{
    let whole = i128::from(scale);
    let fewer_exits = sums.e < sums.g;
    Shares {
        wgd: if fewer_exits { 0 } else { whole },
        wed: if fewer_exits { whole } else { 0 },
        wmd: 0,
        wme: 0,
        wmg: 0,
        wgg: whole,
        wee: whole,
    }
}

/// The weights where both are scarce and comparable, with exits in the middle too.
#[tactic(auto, using(crate::proofs::Numerators::numerators))]
pub fn comparable_with_exits(sums: &Sums, scale: u32) -> Shares
    requires { AreInRange sums.now }
    ensures { result ≡ cases.shares_at cases.comparable_with_exits sums.now scale }
{
    let Sums { g, m, e, d } = *sums;
    let wed = fraction(scale, d + 4 * g, 2 * e + 2 * m, 3 * d);
    Shares {
        wgd: half_of_rest(scale, wed),
        wed,
        wmd: half_of_rest(scale, wed),
        wme: fraction(scale, g, m, e),
        wmg: 0,
        wgg: i128::from(scale),
        wee: fraction(scale, e + m, g, e),
    }
}

/// The weights where both are scarce and comparable, with no exits in the middle.
#[tactic(auto, using(crate::proofs::Numerators::numerators))]
pub fn comparable_without_exits(sums: &Sums, scale: u32) -> Shares
    requires { AreInRange sums.now }
    ensures { result ≡ cases.shares_at cases.comparable_without_exits sums.now scale }
{
    let Sums { g, m, e, d } = *sums;
    let wed = fraction(scale, d + g + m, 2 * e, 3 * d);
    let wmd = fraction(scale, d + g + e, 2 * m, 3 * d).max(0);
    Shares {
        wgd: rest_of_two(scale, wed, wmd),
        wed,
        wmd,
        wme: 0,
        wmg: 0,
        wgg: i128::from(scale),
        wee: i128::from(scale),
    }
}

/// The weights where guards alone are scarce, even with those that are both.
#[tactic(auto, using(crate::proofs::Numerators::numerators))]
pub fn guards_very_scarce(sums: &Sums, scale: u32) -> Shares
    requires { AreInRange sums.now }
    ensures { result ≡ cases.shares_at cases.guards_very_scarce sums.now scale }
{
    let Sums { m, e, .. } = *sums;
    let wme = if e < m {
        0
    } else {
        fraction(scale, e, m, 2 * e)
    };
    Shares {
        wgd: i128::from(scale),
        wed: 0,
        wmd: 0,
        wme,
        wmg: 0,
        wgg: i128::from(scale),
        wee: rest(scale, wme),
    }
}

/// The weights where exits alone are scarce, even with those that are both.
#[tactic(auto, using(crate::proofs::Numerators::numerators))]
pub fn exits_very_scarce(sums: &Sums, scale: u32) -> Shares
    requires { AreInRange sums.now }
    ensures { result ≡ cases.shares_at cases.exits_very_scarce sums.now scale }
{
    let Sums { g, m, .. } = *sums;
    let wmg = if g < m {
        0
    } else {
        fraction(scale, g, m, 2 * g)
    };
    Shares {
        wgd: 0,
        wed: i128::from(scale),
        wmd: 0,
        wme: 0,
        wmg,
        wgg: rest(scale, wmg),
        wee: i128::from(scale),
    }
}

/// The weights where guards alone are scarce, and not with those that are both.
#[tactic(auto, using(crate::proofs::Numerators::numerators))]
pub fn guards_somewhat_scarce(sums: &Sums, scale: u32) -> Shares
    requires { AreInRange sums.now }
    ensures { result ≡ cases.shares_at cases.guards_somewhat_scarce sums.now scale }
{
    let Sums { g, m, e, d } = *sums;
    let wgd = fraction(scale, d + e + m, 2 * g, 3 * d);
    let wee = fraction(scale, e + m, 0, 2 * e);
    Shares {
        wgd,
        wed: half_of_rest(scale, wgd),
        wmd: half_of_rest(scale, wgd),
        wme: rest(scale, wee),
        wmg: 0,
        wgg: i128::from(scale),
        wee,
    }
}

/// The weights where exits alone are scarce, and not with those that are both.
#[tactic(auto, using(crate::proofs::Numerators::numerators))]
pub fn exits_somewhat_scarce(sums: &Sums, scale: u32) -> Shares
    requires { AreInRange sums.now }
    ensures { result ≡ cases.shares_at cases.exits_somewhat_scarce sums.now scale }
{
    let Sums { g, m, e, d } = *sums;
    let wed = fraction(scale, d + g + m, 2 * e, 3 * d);
    let wgg = fraction(scale, g + m, 0, 2 * g);
    Shares {
        wgd: half_of_rest(scale, wed),
        wed,
        wmd: half_of_rest(scale, wed),
        wme: 0,
        wmg: rest(scale, wgg),
        wgg,
        wee: i128::from(scale),
    }
}
