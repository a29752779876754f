// Versions that most lists have.
ghost use Rattle.std.specs.Prelude.{◌≡◌, IfOk, map};
ghost use Rattle.field_votes.specs.Versions as counts;

use crate::version_set::VersionSet;
use dir_bytes::Memory;
use list_values::VersionList;
use std::alloc::Global;

/// The versions that more than half of the lists have that are there, in ascending order, each once.
///
/// # Errors
/// `Memory` is want of memory.
pub fn versions(alloc: Global, lists: &[Option<VersionList>]) -> Result<VersionList, Memory>
    ensures { IfOk result (λ voted. voted ≡ counts.voted_versions lists.now) }
{
    let all = all_versions(alloc, lists)?;
    let sets = sets_of(alloc, lists)?;
    let listed = all.copies_by_most(alloc, &sets)?;
    Ok(VersionList::new(listed))
}

/// The versions that some list has.
fn all_versions<'a>(
    alloc: Global,
    lists: &'a [Option<VersionList>],
) -> Result<VersionSet<'a>, Memory>
    ensures { IfOk result (λ all. all ≡ counts.all_versions (counts.lists_there lists.now)) }
{
    let mut all = VersionSet::new(alloc);
    'lists: for list in lists {
        if let Some(list) = list {
            all.insert_all(list)?;
        }
    }
    Ok(all)
}

/// The versions of each list that is there.
fn sets_of<'a>(
    alloc: Global,
    lists: &'a [Option<VersionList>],
) -> Result<Vec<VersionSet<'a>>, Memory>
    ensures { IfOk result (λ sets. sets.items ≡ map counts.in_order (counts.lists_there lists.now)) }
{
    let mut sets = Vec::new(alloc);
    'lists: for list in lists {
        if let Some(list) = list {
            let mut set = VersionSet::new(alloc);
            set.insert_all(list)?;
            sets.push(set)?;
        }
    }
    Ok(sets)
}
