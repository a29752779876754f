// The canonical form of a family.
ghost use Rattle.std.specs.Prelude.{◌≡◌, IfOk, filter_map};
ghost use Rattle.dir_values.specs.FlagSets.{Ascend};
ghost use Rattle.descriptor_frame.specs.Families as families;

use crate::member::member_of;
use dir_bytes::{Memory, Seq, Text};
use dir_values::WordSet;
use std::alloc::Global;

/// The canonical forms of names, in their order.
///
/// # Errors
/// `Memory` is want of memory.
fn members_of(alloc: Global, names: &[Text]) -> Result<Vec<Text>, Memory>
    ensures { IfOk result (λ members. members.items ≡ filter_map families.member_of names.now) }
{
    let mut members = Vec::new(alloc);
    for name in names {
        if let Some(member) = member_of(alloc, name.as_bytes())? {
            members.push(member)?;
        }
    }
    Ok(members)
}

/// The canonical form of the family that these names make (dir-spec, "Computing microdescriptors"): the set of their canonical
/// forms, sorted by bytes, each once. A fingerprint, with or without `$`, stands behind `$` and in upper case, without what
/// follows its digits from `=` or `~` on; a nickname in lower case; another name that begins with `$` is left out, and any other
/// is kept as it is. It takes n log n comparisons.
///
/// # Errors
/// `Memory` is want of memory.
pub fn canonical_family(alloc: Global, names: &[Text]) -> Result<Seq<Text>, Memory>
    ensures value { IfOk result (λ family. family ≡ families.family_of names.now) }
    ensures ascending { IfOk result (λ family. Ascend family) }
{
    let members = members_of(alloc, names)?;
    let mut set = WordSet::new(alloc);
    set.insert_all(&members)?;
    Ok(Seq::new(set.copies(alloc)?))
}
