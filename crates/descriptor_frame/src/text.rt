// The names of a family in a line.
ghost use Rattle.std.specs.Prelude.{◌≡◌, ◌++◌, OnOk, OnErr, take, vec_len};
ghost use Rattle.descriptor_frame.specs.Families as families;

use dir_bytes::{Memory, Text};

/// Appends the names of a family, with single spaces between them.
///
/// # Errors
/// `Memory` is want of memory.
pub fn push_names(rest: &mut Vec<u8>, names: &[Text]) -> Result<(), Memory>
    ensures ok { OnOk result (rest.new.items ≡ rest.old.items ++ families.family_text names.now) }
    ensures err { OnErr result (take (vec_len rest.old) rest.new.items ≡ rest.old.items) }
{
    let Some((first, others)) = names.split_first() else {
        return Ok(());
    };
    rest.extend_from_slice(first.as_bytes())?;
    'names: for name in others {
        rest.push(b' ')?;
        rest.extend_from_slice(name.as_bytes())?;
    }
    Ok(())
}
