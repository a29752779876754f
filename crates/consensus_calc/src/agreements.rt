// How many votes must have a shared random value.
ghost use Rattle.std.specs.Prelude.{◌≡◌};
ghost use Rattle.compute_terms.specs.Randoms as terms;

use consensus_terms::is_34_or_later;
use list_values::Params;

/// How many votes must have a shared random value at least, besides more than half of the roster, in a consensus by this method
/// that lists these params and is valid at these times.
pub fn least_agreements(
    method: u32,
    roster: u32,
    params: &Params,
    valid_after: u64,
    fresh_until: u64,
) -> u64
    ensures { result ≡ terms.least_agreements method roster params.now valid_after fresh_until }
{
    if is_34_or_later(method) && begins_run(valid_after, fresh_until) {
        agreements_by(roster, params.value(b"AuthDirNumSRVAgreements"))
    } else {
        0
    }
}

/// Whether the consensus of these times is the first of a run of the protocol of shared randomness.
fn begins_run(valid_after: u64, fresh_until: u64) -> bool
    ensures { result ≡ terms.begins_run valid_after fresh_until }
{
    valid_after < fresh_until && valid_after / (fresh_until - valid_after) % 24 == 0
}

/// How many votes must agree on a new value, as this param says, if it is listed.
fn agreements_by(roster: u32, param: Option<i32>) -> u64
    ensures { result ≡ terms.agreements_by roster param }
{
    match param {
        Some(count) => at_least_zero(count) as u64,
        None => 2 * roster as u64 / 3,
    }
}

/// A number, and 0 in place of a lesser one.
fn at_least_zero(number: i32) -> u32
    ensures { result ≡ terms.at_least_zero number }
{
    number.max(0) as u32
}
