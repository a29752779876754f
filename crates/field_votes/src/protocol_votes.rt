// Numbers of protocols that enough lists have.
ghost use Rattle.std.specs.Prelude.{◌≡◌, ◌<◌, ◌≤◌, IfOk, count_by};
ghost use Rattle.list_values.specs.Masks as masks;
ghost use Rattle.list_values.specs.Protocols.{has_version};
ghost use Rattle.field_votes.specs.Lists as votes;
ghost use Rattle.field_votes.specs.Private as private;

use dir_bytes::{Memory, Text};
use dir_values::WordSet;
use list_values::{Named, ProtoRanges};
use std::alloc::Global;

/// The numbers of protocols that at least so many of the lists have. A protocol with none is left out.
///
/// # Errors
/// `Memory` is want of memory.
pub fn protocols(alloc: Global, least: u64, lists: &[ProtoRanges]) -> Result<ProtoRanges, Memory>
    ensures { IfOk result (λ voted. voted ≡ votes.voted_protocols least lists.now) }
{
    let names = all_names(alloc, lists)?;
    let items = listed_protocols(alloc, least, lists, &names)?;
    Ok(ProtoRanges::new(items))
}

/// The names that some list has.
fn all_names(alloc: Global, lists: &[ProtoRanges]) -> Result<Vec<Text>, Memory>
    ensures { IfOk result (λ names. names.items ≡ votes.all_names lists.now) }
{
    let mut names = WordSet::new(alloc);
    'lists: for list in lists {
        list.add_names(&mut names)?;
    }
    names.copies(alloc)
}

/// Those of some names of which so many lists have a number, with these numbers.
fn listed_protocols(
    alloc: Global,
    least: u64,
    lists: &[ProtoRanges],
    names: &[Text],
) -> Result<Vec<Named<u64>>, Memory>
    ensures { IfOk result (λ listed. listed.items ≡ private.masks_among least lists.now names.now) }
{
    let mut listed = Vec::new(alloc);
    'names: for name in names {
        let value = listed_mask(least, lists, name.as_bytes());
        if value != 0 {
            let name = Text::copy_of(alloc, name.as_bytes())?;
            listed.push(Named { name, value })?;
        }
    }
    Ok(listed)
}

/// The bits of the numbers of a protocol that so many lists have.
fn listed_mask(least: u64, lists: &[ProtoRanges], name: &[u8]) -> u64
    ensures { result ≡ private.mask_that (votes.is_listed_number least lists.now name.now) }
{
    let mut mask = 0;
    let mut number = 0u8;
    'numbers: while number < 64 {
        if is_listed_number(least, lists, name, number) {
            mask |= 1 << number;
        }
        number += 1;
    }
    mask
}

/// Whether at least so many lists have a number of a protocol.
fn is_listed_number(least: u64, lists: &[ProtoRanges], name: &[u8], number: u8) -> bool
    ensures { result ≡ votes.is_listed_number least lists.now name.now number }
{
    least <= count_of(lists, name, number) as u64
}

/// How many lists have a number of a protocol.
fn count_of(lists: &[ProtoRanges], name: &[u8], number: u8) -> usize
    ensures { result ≡ count_by (λ list. has_version list name.now number) lists.now }
{
    lists
        .iter()
        .filter(|list| list.contains(name, number))
        .count()
}
