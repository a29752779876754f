// The flags that most lists set.
ghost use Rattle.std.specs.Prelude.{◌≡◌, ◌<◌, ◌≤◌, IfOk, OnOk, length, filter};
ghost use Rattle.dir_values.specs.FlagSets.{as_set};
ghost use Rattle.field_votes.specs.Flags as flags;
ghost use Rattle.field_votes.specs.Private.{with_flag_if};

use crate::flag_lists::listed_flags;
use dir_bytes::Memory;
use dir_values::FlagSet;
use std::alloc::Global;

/// The flags that more than half of the lists that know them set, without `NoEdConsensus`. Where `MiddleOnly` is among them,
/// without `Exit`, `Guard`, `HSDir` and `V2Dir`, and with `BadExit`. What is set by a list stands at its place; None sets
/// nothing.
///
/// # Errors
/// `Memory` is want of memory.
pub fn majority_flags(
    alloc: Global,
    known: &[FlagSet],
    set: &[Option<FlagSet>],
) -> Result<FlagSet, Memory>
    requires { length set.now ≡ length known.now }
    ensures { IfOk result (λ chosen. chosen ≡ flags.majority_flags known.now set.now) }
{
    let listed = listed_flags(alloc, known)?;
    let chosen = flags_of_most(alloc, &listed, known, set)?;
    adjusted_flags(alloc, chosen)
}

/// Those of some flags that most set.
fn flags_of_most(
    alloc: Global,
    listed: &FlagSet,
    known: &[FlagSet],
    set: &[Option<FlagSet>],
) -> Result<FlagSet, Memory>
    requires { length set.now ≡ length known.now }
    ensures { IfOk result (λ chosen. chosen ≡ as_set (filter (flags.is_majority_flag known.now set.now) listed.now)) }
{
    let mut chosen = FlagSet::new(alloc);
    'flags: for i in 0..listed.len() {
        let flag = listed.flag(i);
        let wanted = is_majority_flag(known, set, flag);
        insert_if(alloc, &mut chosen, wanted, flag)?;
    }
    Ok(chosen)
}

/// The flags as a consensus lists them: those of a relay with `MiddleOnly` are of one that may stand only in the middle.
fn adjusted_flags(alloc: Global, chosen: FlagSet) -> Result<FlagSet, Memory>
    ensures { IfOk result (λ adjusted. adjusted ≡ flags.adjusted_flags chosen) }
{
    if !chosen.contains(b"MiddleOnly") {
        return Ok(chosen);
    }
    let mut adjusted = middle_flags(alloc, &chosen)?;
    adjusted.insert(alloc, b"BadExit")?;
    Ok(adjusted)
}

/// Those of some flags that a relay may have that may stand only in the middle.
fn middle_flags(alloc: Global, chosen: &FlagSet) -> Result<FlagSet, Memory>
    ensures { IfOk result (λ left. left ≡ as_set (filter flags.suits_middle chosen.now)) }
{
    let mut left = FlagSet::new(alloc);
    'flags: for i in 0..chosen.len() {
        let flag = chosen.flag(i);
        insert_if(alloc, &mut left, suits_middle(flag), flag)?;
    }
    Ok(left)
}

/// Puts a flag into a set, where it is wanted.
fn insert_if(alloc: Global, set: &mut FlagSet, wanted: bool, flag: &[u8]) -> Result<(), Memory>
    ensures { OnOk result (set.new ≡ with_flag_if wanted set.old flag.now) }
{
    if wanted {
        set.insert(alloc, flag)?;
    }
    Ok(())
}

/// Whether a relay that may stand only in the middle may have a flag.
fn suits_middle(flag: &[u8]) -> bool
    ensures { result ≡ flags.suits_middle flag.now }
{
    !(flag == b"Exit".as_slice()
        || flag == b"Guard".as_slice()
        || flag == b"HSDir".as_slice()
        || flag == b"V2Dir".as_slice())
}

/// Whether a flag is set by more than half of the lists that know it, and is another than `NoEdConsensus`.
fn is_majority_flag(known: &[FlagSet], set: &[Option<FlagSet>], flag: &[u8]) -> bool
    requires { length set.now ≡ length known.now }
    ensures { result ≡ flags.is_majority_flag known.now set.now flag.now }
{
    if flag == b"NoEdConsensus".as_slice() {
        return false;
    }
    let knowing = knowing_count(known, flag);
    let setting = setting_count(known, set, flag);
    setting > knowing / 2
}

/// How many lists know a flag.
fn knowing_count(known: &[FlagSet], flag: &[u8]) -> usize
    ensures { result ≡ flags.knowing_count known.now flag.now }
{
    known.iter().filter(|flags| flags.contains(flag)).count()
}

/// How many of the lists that know a flag set it.
fn setting_count(known: &[FlagSet], set: &[Option<FlagSet>], flag: &[u8]) -> usize
    requires { length set.now ≡ length known.now }
    ensures { result ≡ flags.setting_count known.now set.now flag.now }
{
    known
        .iter()
        .zip(set)
        .filter(|both| both.0.contains(flag) && is_in(flag, both.1))
        .count()
}

/// Whether a flag is set, where something is said.
fn is_in(flag: &[u8], set: &Option<FlagSet>) -> bool
    ensures { result ≡ flags.is_in flag.now set.now }
{
    match set {
        Some(flags) => flags.contains(flag),
        None => false,
    }
}
