// The flags that some list has.
ghost use Rattle.std.specs.Prelude.{◌≡◌, List, ℕ, IfOk, OnOk, OnErr};
ghost use Rattle.dir_values.specs.FlagSets.{as_set};
ghost use Rattle.field_votes.specs.Flags as flags;
ghost use Rattle.field_votes.specs.Private.{with_own};

use dir_bytes::Memory;
use dir_values::FlagSet;
use std::alloc::Global;

/// The flags that some list has, `NoEdConsensus`, and `BadExit` where `MiddleOnly` is among the listed ones.
///
/// # Errors
/// `Memory` is want of memory.
pub fn known_flags(alloc: Global, lists: &[FlagSet]) -> Result<FlagSet, Memory>
    ensures { IfOk result (λ set. set ≡ flags.known_flags lists.now) }
{
    let mut set = listed_flags(alloc, lists)?;
    add_own_flags(alloc, &mut set)?;
    Ok(set)
}

/// Adds the flags that a consensus has of its own to those that votes list: `NoEdConsensus`, and `BadExit` where `MiddleOnly`
/// is among them.
///
/// # Errors
/// `Memory` is want of memory; the set stays as it was.
pub fn add_own_flags(alloc: Global, set: &mut FlagSet) -> Result<(), Memory>
    ensures ok { OnOk result ((listed : List (List ℕ)) → set.old ≡ as_set listed → set.new ≡ as_set (flags.with_own_flags listed)) }
    ensures err { OnErr result (set.new ≡ set.old) }
{
    add_own(alloc, set)?;
    Ok(())
}

/// The flags that some list has.
pub(crate) fn listed_flags(alloc: Global, lists: &[FlagSet]) -> Result<FlagSet, Memory>
    ensures { IfOk result (λ set. set ≡ as_set (flags.listed_flags lists.now)) }
{
    let mut set = FlagSet::new(alloc);
    'lists: for list in lists {
        set.insert_all(alloc, list)?;
    }
    Ok(set)
}

/// Adds the flags that a consensus has of its own. Without memory the set stays as it was.
fn add_own(alloc: Global, set: &mut FlagSet) -> Result<(), Memory>
    ensures ok { OnOk result (set.new ≡ with_own set.old) }
    ensures err { OnErr result (set.new ≡ set.old) }
{
    if set.contains(b"MiddleOnly") {
        set.insert_words(alloc, b"NoEdConsensus BadExit")
    } else {
        set.insert(alloc, b"NoEdConsensus")
    }
}
