// Writing the rests of a server descriptor's lines.
ghost use Rattle.std.specs.Prelude.{◌≡◌, ◌++◌, OnOk, OnErr, take, vec_len};
ghost use Rattle.descriptor_text.specs.Lines as texts;

use descriptor_doc::{BandwidthLine, Router};
use dir_bytes::{Memory, push_address, push_decimal, push_hex_upper};
use dir_values::Fingerprint;

/// Appends a relay's three ports.
fn push_ports(rest: &mut Vec<u8>, router: &Router) -> Result<(), Memory>
    ensures ok { OnOk result (rest.new.items ≡ rest.old.items ++ texts.ports_text router.now) }
    ensures err { OnErr result (take (vec_len rest.old) rest.new.items ≡ rest.old.items) }
{
    push_decimal(rest, router.or_port as u64)?;
    rest.push(b' ')?;
    push_decimal(rest, router.socks_port as u64)?;
    rest.push(b' ')?;
    push_decimal(rest, router.dir_port as u64)
}

/// Appends a relay: its nickname, its IPv4 address and its ports.
pub(crate) fn push_router(rest: &mut Vec<u8>, router: &Router) -> Result<(), Memory>
    ensures ok { OnOk result (rest.new.items ≡ rest.old.items ++ texts.router_text router.now) }
    ensures err { OnErr result (take (vec_len rest.old) rest.new.items ≡ rest.old.items) }
{
    rest.extend_from_slice(router.nickname.as_bytes())?;
    rest.push(b' ')?;
    push_address(rest, router.ip)?;
    rest.push(b' ')?;
    push_ports(rest, router)
}

/// Appends what a relay can carry.
pub(crate) fn push_bandwidth(rest: &mut Vec<u8>, line: &BandwidthLine) -> Result<(), Memory>
    ensures ok { OnOk result (rest.new.items ≡ rest.old.items ++ texts.bandwidth_text line.now) }
    ensures err { OnErr result (take (vec_len rest.old) rest.new.items ≡ rest.old.items) }
{
    push_decimal(rest, line.average)?;
    rest.push(b' ')?;
    push_decimal(rest, line.burst)?;
    rest.push(b' ')?;
    push_decimal(rest, line.observed)
}

/// Appends an identity in ten groups of four hex digits.
pub(crate) fn push_groups(rest: &mut Vec<u8>, identity: &Fingerprint) -> Result<(), Memory>
    ensures ok { OnOk result (rest.new.items ≡ rest.old.items ++ texts.groups_text identity.now) }
    ensures err { OnErr result (take (vec_len rest.old) rest.new.items ≡ rest.old.items) }
{
    push_hex_upper(rest, &identity.0[..2])?;
    'groups: for i in 1..10usize {
        rest.push(b' ')?;
        push_hex_upper(rest, &identity.0[2 * i..2 * i + 2])?;
    }
    Ok(())
}

/// Whether a relay rests, as `0` or `1`.
pub(crate) fn hibernating_text(rests: bool) -> &'static [u8]
    ensures { result.now ≡ texts.hibernating_text rests }
{
    if rests { b"1" } else { b"0" }
}
