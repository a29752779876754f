// The ports that an item of a policy speaks of.
ghost use Rattle.std.specs.Prelude.{◌≡◌};
ghost use Rattle.exit_summary.specs.PolicyItems as policies;

use dir_values::{after, before, has, port_of};

/// The ports from one to another that does not come before it.
fn ports_between(low: Option<u16>, high: Option<u16>) -> Option<(u16, u16)>
    ensures { result ≡ policies.ports_between low high }
{
    match (low, high) {
        (Some(low), Some(high)) => { if low <= high { Some((low, high)) } else { None } }
        _ => None,
    }
}

/// The ports that a text names.
pub(crate) fn ports_of(text: &[u8]) -> Option<(u16, u16)>
    ensures { result ≡ policies.ports_of text.now }
{
    if text == b"*".as_slice() {
        Some((1, 65535))
    } else if has(text, b'-') {
        ports_between(port_of(before(text, b'-')), port_of(after(text, b'-')))
    } else {
        ports_between(port_of(text), port_of(text))
    }
}
