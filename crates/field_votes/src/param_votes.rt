// Params that enough lists name.
ghost use Rattle.std.specs.Prelude.{◌≡◌, ◌<◌, ◌^◌, if◌then◌else◌, Some, None, IfOk};
ghost use Rattle.list_values.specs.Maps as maps;
ghost use Rattle.field_votes.specs.Lists as votes;
ghost use Rattle.field_votes.specs.Private as private;

use crate::medians::low_median_i32;
use dir_bytes::{Memory, Text};
use dir_values::WordSet;
use list_values::{Named, Params};
use std::alloc::Global;

/// The params that more than half of a roster name, or at least three lists, each with the low median of its values.
///
/// # Errors
/// `Memory` is want of memory.
pub fn params(alloc: Global, roster: u32, lists: &[Params]) -> Result<Params, Memory>
    ensures { IfOk result (λ voted. voted ≡ votes.voted_params roster lists.now) }
{
    let names = all_names(alloc, lists)?;
    let items = listed_params(alloc, roster, lists, &names)?;
    Ok(Params::new(items))
}

/// The names that some list has.
fn all_names(alloc: Global, lists: &[Params]) -> Result<Vec<Text>, Memory>
    ensures { IfOk result (λ names. names.items ≡ votes.all_names lists.now) }
{
    let mut names = WordSet::new(alloc);
    'lists: for list in lists {
        list.add_names(&mut names)?;
    }
    names.copies(alloc)
}

/// Those of some names that enough lists have, with their low medians.
fn listed_params(
    alloc: Global,
    roster: u32,
    lists: &[Params],
    names: &[Text],
) -> Result<Vec<Named<i32>>, Memory>
    ensures { IfOk result (λ listed. listed.items ≡ private.params_among roster lists.now names.now) }
{
    let mut listed = Vec::new(alloc);
    'names: for name in names {
        if let Some(value) = listed_value(alloc, roster, lists, name.as_bytes())? {
            let name = Text::copy_of(alloc, name.as_bytes())?;
            listed.push(Named { name, value })?;
        }
    }
    Ok(listed)
}

/// The low median of a name's values, if enough lists have it.
fn listed_value(
    alloc: Global,
    roster: u32,
    lists: &[Params],
    name: &[u8],
) -> Result<Option<i32>, Memory>
    ensures { IfOk result (λ value. value ≡ private.listed_value roster lists.now name.now) }
{
    let mut values = values_in(alloc, lists, name)?;
    if !are_enough(roster, values.len()) {
        return Ok(None);
    }
    values.sort_unstable();
    Ok(Some(low_median_i32(&values)))
}

/// Whether so many lists that name a param are enough.
fn are_enough(roster: u32, count: usize) -> bool
    ensures { result ≡ votes.are_enough roster count }
{
    count > roster as usize / 2 || count >= 3
}

/// The values that lists have for a name.
fn values_in(alloc: Global, lists: &[Params], name: &[u8]) -> Result<Vec<i32>, Memory>
    ensures { IfOk result (λ values. values.items ≡ votes.values_in lists.now name.now) }
{
    let mut values = Vec::new(alloc);
    'lists: for list in lists {
        if let Some(value) = list.value(name) {
            values.push(value)?;
        }
    }
    Ok(values)
}
