// What a change names: an authority, and digests.
ghost use Rattle.std.specs.Prelude.{◌≡◌, ◌++◌, OnOk};
ghost use Rattle.serve_work.specs.Reports as reports;

use dir_bytes::{Memory, push_hex_upper};
use dir_values::Fingerprint;
use hex::encode;
use std::alloc::Global;

/// Appends bytes.
pub(crate) fn push(out: &mut Vec<u8>, text: &[u8]) -> Result<(), Memory>
    ensures { OnOk result (out.new.items ≡ out.old.items ++ text.now) }
{
    out.extend_from_slice(text)?;
    Ok(())
}

/// Appends the identity of an authority, or `-`.
pub(crate) fn push_authority(
    out: &mut Vec<u8>,
    authority: Option<Fingerprint>,
) -> Result<(), Memory>
    ensures { OnOk result (out.new.items ≡ out.old.items ++ reports.authority_text authority) }
{
    match authority {
        Some(authority) => push_hex_upper(out, &authority.0),
        None => push(out, b"-"),
    }
}

/// Appends digests in hex digits, or `-`.
pub(crate) fn push_digests(alloc: Global, out: &mut Vec<u8>, digests: &[u8]) -> Result<(), Memory>
    ensures { OnOk result (out.new.items ≡ out.old.items ++ reports.digests_text digests.now) }
{
    if digests.is_empty() {
        return push(out, b"-");
    }
    let text = encode(alloc, digests)?;
    push(out, text.as_bytes())
}
