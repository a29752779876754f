// Writing an item of a policy.
ghost use Rattle.std.specs.Prelude.{◌≡◌, ◌++◌, OnOk, OnErr, take, vec_len};
ghost use Rattle.exit_summary.specs.Texts as texts;

use dir_bytes::{Memory, push_address, push_decimal};
use dir_values::{Net, PolicyItem};

/// Appends an IPv4 address and the number of its bits that count.
fn push_v4(out: &mut Vec<u8>, address: u32, bits: u8) -> Result<(), Memory>
    ensures ok { OnOk result (out.new.items ≡ out.old.items ++ texts.v4_text address bits) }
    ensures err { OnErr result (take (vec_len out.old) out.new.items ≡ out.old.items) }
{
    if address == 0 && bits == 0 {
        out.extend_from_slice(b"*4")?;
        return Ok(());
    }
    push_address(out, address)?;
    if bits == 32 {
        return Ok(());
    }
    out.push(b'/')?;
    push_decimal(out, bits as u64)
}

/// Appends a net.
fn push_net(out: &mut Vec<u8>, net: Net) -> Result<(), Memory>
    ensures ok { OnOk result (out.new.items ≡ out.old.items ++ texts.net_text net) }
    ensures err { OnErr result (take (vec_len out.old) out.new.items ≡ out.old.items) }
{
    match net {
        Net::Star => out.extend_from_slice(b"*")?,
        Net::V4 { address, bits } => push_v4(out, address, bits)?,
        Net::V6 => out.extend_from_slice(b"*6")?,
    }
    Ok(())
}

/// Appends ports.
fn push_ports(out: &mut Vec<u8>, low: u16, high: u16) -> Result<(), Memory>
    ensures ok { OnOk result (out.new.items ≡ out.old.items ++ texts.ports_text low high) }
    ensures err { OnErr result (take (vec_len out.old) out.new.items ≡ out.old.items) }
{
    if low == 1 && high == 65535 {
        out.extend_from_slice(b"*")?;
        return Ok(());
    }
    push_decimal(out, low as u64)?;
    if low == high {
        return Ok(());
    }
    out.push(b'-')?;
    push_decimal(out, high as u64)
}

/// Appends the text of an item, without the word that says what it does: `*`, `*4` for all IPv4 addresses, `*6` for some of
/// IPv6, else an address, with the number of its bits that count where not all do; and `*` for the ports 1 to 65535, else
/// one or two.
///
/// # Errors
/// `Memory` is want of memory.
pub fn push_item(out: &mut Vec<u8>, item: PolicyItem) -> Result<(), Memory>
    ensures ok { OnOk result (out.new.items ≡ out.old.items ++ texts.item_text item) }
    ensures err { OnErr result (take (vec_len out.old) out.new.items ≡ out.old.items) }
{
    push_net(out, item.net)?;
    out.push(b':')?;
    push_ports(out, item.low, item.high)
}
