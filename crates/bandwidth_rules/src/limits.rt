// What params say of bandwidth.
ghost use Rattle.std.specs.Prelude.{◌≡◌, ◌<◌, ◌^◌};
ghost use Rattle.bandwidth_rules.specs.Limits as limits;

use consensus_terms::is_34_or_later;
use list_values::Params;

/// What a bandwidth that is not measured is at most by this method, in kilobytes per second: the param `maxunmeasuredbw`, 20 where
/// there is none, and at least 1 (dir-spec, "Computing a consensus from a set of votes"); from 34 on there is no limit where it is
/// under 0.
pub fn unmeasured_limit(method: u32, params: &Params) -> Option<u32>
    ensures { result ≡ limits.unmeasured_limit method params.now }
{
    limit_from(method, params.value(b"maxunmeasuredbw").unwrap_or(20))
}

/// The limit that a number sets.
fn limit_from(method: u32, number: i32) -> Option<u32>
    ensures { result ≡ limits.limit_from method number }
{
    if number < 0 && is_34_or_later(method) {
        None
    } else {
        Some(at_least_one(number))
    }
}

/// The scale of the weights of bandwidth: the param `bwweightscale`, 10000 where there is none, and at least 1 (dir-spec,
/// "Computing Bandwidth Weights").
pub fn weight_scale(params: &Params) -> u32
    ensures value { result ≡ limits.weight_scale params.now }
    ensures least { 0 < result }
    ensures most { result < 2 ^ 31 }
{
    at_least_one(params.value(b"bwweightscale").unwrap_or(10000))
}

/// A number, and 1 in place of a lesser one.
fn at_least_one(number: i32) -> u32
    ensures value { result ≡ limits.at_least_one number }
    ensures least { 0 < result }
    ensures most { result < 2 ^ 31 }
{
    number.max(1) as u32
}
