// Which case the sums are in, and its weights in range.
ghost use Rattle.std.specs.Prelude.{◌≡◌, ◌<◌, ◌^◌};
ghost use Rattle.bw_weights.specs.{Balance.GivesOutEachClass, Sums.AreInRange};
ghost use Rattle.bw_weights.specs.Weights as table;

use crate::cases::{
    both_scarce_unequal, comparable_with_exits, comparable_without_exits, exits_somewhat_scarce,
    exits_very_scarce, guards_somewhat_scarce, guards_very_scarce, neither_scarce,
};
use crate::fraction::nearest_within;
use crate::position_weights::Weights;
use crate::shares::Shares;
use crate::sums::Sums;

/// The weights where guards and exits are scarce and comparable.
fn comparable(sums: &Sums, scale: u32) -> Shares
    requires { AreInRange sums.now }
    ensures { result ≡ table.comparable sums.now scale }
{
    let shares = comparable_with_exits(sums, scale);
    if shares.are_within(scale) {
        shares
    } else {
        comparable_without_exits(sums, scale)
    }
}

/// The weights where guards and exits are scarce.
fn both_scarce(sums: &Sums, scale: u32) -> Shares
    requires { AreInRange sums.now }
    ensures { result ≡ table.both_scarce sums.now scale }
{
    if sums.are_unequal() {
        both_scarce_unequal(sums, scale)
    } else {
        comparable(sums, scale)
    }
}

/// The weights where guards alone are scarce.
fn guards_scarce(sums: &Sums, scale: u32) -> Shares
    requires { AreInRange sums.now }
    ensures { result ≡ table.guards_scarce sums.now scale }
{
    if sums.is_scarce(sums.g + sums.d) {
        guards_very_scarce(sums, scale)
    } else {
        guards_somewhat_scarce(sums, scale)
    }
}

/// The weights where exits alone are scarce.
fn exits_scarce(sums: &Sums, scale: u32) -> Shares
    requires { AreInRange sums.now }
    ensures { result ≡ table.exits_scarce sums.now scale }
{
    if sums.is_scarce(sums.e + sums.d) {
        exits_very_scarce(sums, scale)
    } else {
        exits_somewhat_scarce(sums, scale)
    }
}

/// The weights of the case that the sums are in.
pub fn shares_of(sums: &Sums, scale: u32) -> Shares
    requires { AreInRange sums.now }
    ensures { result ≡ table.shares_of sums.now scale }
{
    match (sums.is_scarce(sums.g), sums.is_scarce(sums.e)) {
        (true, true) => both_scarce(sums, scale),
        (true, false) => guards_scarce(sums, scale),
        (false, true) => exits_scarce(sums, scale),
        (false, false) => neither_scarce(sums, scale),
    }
}

/// Each weight brought into 0 to the scale.
fn weights_within(shares: &Shares, scale: u32) -> Weights
    ensures value { result ≡ table.weights_within scale shares.now }
    ensures range { table.AreFractions result }
{
    Weights {
        wgd: nearest_within(scale, shares.wgd),
        wed: nearest_within(scale, shares.wed),
        wmd: nearest_within(scale, shares.wmd),
        wme: nearest_within(scale, shares.wme),
        wmg: nearest_within(scale, shares.wmg),
        wgg: nearest_within(scale, shares.wgg),
        wee: nearest_within(scale, shares.wee),
        scale,
    }
}

/// The weights at these sums and this scale (dir-spec, "Computing Bandwidth Weights"). Those of each class are, over
/// the positions, the whole of the scale but for what truncation loses.
#[tactic(auto, using(crate::proofs::Choices::gives_out_each_class))]
pub fn weights(sums: &Sums, scale: u32) -> Weights
    requires sums { AreInRange sums.now }
    requires scale_least { 0 < scale }
    requires scale_most { scale < 2 ^ 31 }
    ensures value { result ≡ table.weights_of sums.now scale }
    ensures range { table.AreFractions result }
    ensures classes { GivesOutEachClass result }
    ensures scale { result.scale ≡ scale }
{
    weights_within(&shares_of(sums, scale), scale)
}
