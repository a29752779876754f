// The weights that follow from relays.
ghost use Rattle.std.specs.Prelude.{◌≡◌, ◌<◌, ◌^◌, length, IfSome};
ghost use Rattle.bw_weights.specs.{Balance.GivesOutEachClass, Weights.AreFractions};
ghost use Rattle.bandwidth_rules.specs.Weights as rules;

use crate::class_sums::sums_of;
use crate::limits::weight_scale;
use bw_weights::{Weights, stated_weights, weights};
use consensus_terms::{Routerline, is_34_or_later};
use list_values::Params;

/// The weights of bandwidth of a consensus by a method that lists these relays and these params (dir-spec, "Computing Bandwidth
/// Weights"). From method 34 on there are none where C tor leaves their line out.
pub fn relay_weights(method: u32, routers: &[Routerline], params: &Params) -> Option<Weights>
    requires { length routers.now < 2 ^ 22 }
    ensures value { result ≡ rules.relay_weights method routers.now params.now }
    ensures range { IfSome result AreFractions }
    ensures classes { IfSome result GivesOutEachClass }
{
    let sums = sums_of(routers);
    let scale = weight_scale(params);
    if is_34_or_later(method) {
        stated_weights(&sums, scale)
    } else {
        Some(weights(&sums, scale))
    }
}
