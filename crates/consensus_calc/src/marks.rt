// Which flags stand in a text.
ghost use Rattle.std.specs.Prelude.{◌≡◌, ◌<◌, ◌^◌, [], ◌∷◌, false, Some, MatchOption, OnOk, length, map, replicate};
ghost use Rattle.std.specs.Prelude.{slice_get};
ghost use Rattle.item_terms.specs.Words.{words_of};
ghost use Rattle.dir_values.specs.FlagSets.{has_flag, as_set, Ascend};
ghost use Rattle.consensus_calc.specs.Marks.{flag_marks};

use dir_bytes::Memory;
use dir_values::{Arguments, FlagSet};

/// Replaces what is in `marks` by whether each of these flags is a word of a text.
pub fn mark(known: &FlagSet, text: &[u8], marks: &mut Vec<bool>) -> Result<(), Memory>
    requires { length text.now < 2 ^ 62 }
    ensures { OnOk result (marks.new.items ≡ map (λ flag. has_flag (as_set (words_of text.now)) flag) known.now) }
{
    unmark(known.len(), marks)?;
    let mut arguments = Arguments::at(0, text);
    'arguments: while let Some(argument) = arguments.next() {
        mark_one(known, argument.text, marks);
    }
    Ok(())
}

/// So many marks, none of them set.
fn unmark(count: usize, marks: &mut Vec<bool>) -> Result<(), Memory>
    ensures { OnOk result (marks.new.items ≡ replicate count false) }
{
    marks.clear();
    'marks: for _i in 0..count {
        marks.push(false)?;
    }
    Ok(())
}

/// Marks a flag, where it is one of these.
fn mark_one(known: &FlagSet, word: &[u8], marks: &mut Vec<bool>)
    requires { length marks.old.items ≡ length known.now }
    ensures { marks.new.items ≡ flag_marks known.now marks.old.items (word.now ∷ []) }
{
    if let Some(i) = place_of(known, word) {
        marks[i] = true;
    }
}

/// The place of a flag among these.
fn place_of(known: &FlagSet, word: &[u8]) -> Option<usize>
    ensures found { MatchOption result (has_flag known.now word.now ≡ false) (λ i. slice_get known.now i ≡ Some word.now) }
    ensures ascend { Ascend known.now }
{
    'flags: for i in 0..known.len() {
        if known.flag(i) == word {
            return Some(i);
        }
    }
    None
}
