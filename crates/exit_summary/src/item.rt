// Reading an item of a policy.
ghost use Rattle.std.specs.Prelude.{◌≡◌, IsTrue, IfSome};
ghost use Rattle.exit_summary.specs.Policies.{is_net};
ghost use Rattle.exit_summary.specs.PolicyItems as policies;

use crate::last::{after_last, before_last, has_last};
use crate::net::net_of;
use crate::ports::ports_of;
use dir_values::PolicyItem;

/// The item of a policy that a text spells: a net, a colon and ports (dir-spec, "exitpattern"). A net is `*`, `*4`, `*6`, an
/// IPv4 address with a number of bits or a mask behind a slash or without, or what stands in brackets, with a number of bits
/// or without. Ports are `*`, one, or two with a hyphen between them. None for any other text.
/// Of an IPv4 address no more than 32 bits count.
pub fn item_of(accept: bool, text: &[u8]) -> Option<PolicyItem>
    ensures value { result ≡ policies.item_of accept text.now }
    ensures net { IfSome result (λ item. IsTrue (is_net item.net)) }
{
    if !has_last(text, b':') {
        return None;
    }
    let net = net_of(before_last(text, b':'))?;
    let (low, high) = ports_of(after_last(text, b':'))?;
    Some(PolicyItem {
        accept,
        net,
        low,
        high,
    })
}
