// Bytes that are added to a vector which has room for them.
ghost use Rattle.std.specs.Prelude.{◌≡◌, ◌+◌, ◌≤◌, ◌++◌, OnOk, OnErr, IsOk, length, vec_len, vec_capacity};

use crate::fault::Memory;

/// Room for so many bytes more.
pub(crate) fn reserve(out: &mut Vec<u8>, count: usize) -> Result<(), Memory>
    ensures items { out.new.items ≡ out.old.items }
    ensures ok { OnOk result (vec_len out.new + count ≤ vec_capacity out.new) }
    ensures room { vec_len out.old + count ≤ vec_capacity out.old → IsOk result }
    ensures capacity { vec_capacity out.old ≤ vec_capacity out.new }
{
    out.try_reserve(count)?;
    Ok(())
}

/// Adds the bytes, for which there is room.
pub(crate) fn append(out: &mut Vec<u8>, text: &[u8])
    requires { vec_len out.old + length text.now ≤ vec_capacity out.old }
    ensures items { out.new.items ≡ out.old.items ++ text.now }
    ensures len { vec_len out.new ≡ vec_len out.old + length text.now }
    ensures capacity { vec_capacity out.old ≤ vec_capacity out.new }
{
    match out.extend_from_slice(text) {
        Ok(()) => {}
        Err(_) => unreachable!(),
    }
}

/// Adds the bytes whole, or leaves the vector as it was.
pub(crate) fn push_text(out: &mut Vec<u8>, text: &[u8]) -> Result<(), Memory>
    ensures ok { OnOk result (out.new.items ≡ out.old.items ++ text.now) }
    ensures err { OnErr result (out.new.items ≡ out.old.items) }
    ensures room { vec_len out.old + length text.now ≤ vec_capacity out.old → IsOk result }
    ensures capacity { vec_capacity out.old ≤ vec_capacity out.new }
{
    out.extend_from_slice(text)?;
    Ok(())
}
