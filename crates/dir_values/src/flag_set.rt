// Sets of flags.
ghost use Rattle.std.specs.Prelude.{◌≡◌, ◌==◌, ◌+◌, ◌<◌, ◌≤◌, ◌^◌, ◌++◌, [], Some, IsOk, OnOk, OnErr, IfOk, length};
ghost use Rattle.std.specs.{Prelude.{slice_get, vec_len, vec_capacity, take}, List.fold};
ghost use Rattle.dir_values.specs.FlagSets as flag_sets;
ghost use Rattle.dir_values.specs.Lending as lending;
ghost use Rattle.dir_values.specs.{Arguments.texts_of, Refusals.Reads};
ghost use Rattle.item_terms.specs.Words.{words_of};

use crate::arguments::Arguments;
use crate::flag_list::first_wrong_flag;
use crate::refusal::ValueRefusal;
use crate::word_set::WordSet;
use dir_bytes::{Memory, Text};
use std::alloc::Global;
use std::marker::Model;

/// A set of flags, in ascending order of their bytes.
#[derive(Debug, Drop)]
pub struct FlagSet {
    flags: Vec<Text>,
}

impl Model for FlagSet {
    ghost use Rattle.std.specs.Prelude.{List, ℕ};
    ghost use Rattle.dir_values.specs.FlagSets.{Ascend};

    ghost Value = { List (List ℕ) };

    ghost view = { λ s. s.flags.items };

    ghost invariant = { λ s. Ascend s.flags.items };
}

impl FlagSet {
    /// The set of no flags.
    pub fn new(alloc: Global) -> FlagSet
        ensures { result ≡ [] }
    {
        FlagSet {
            flags: Vec::new(alloc),
        }
    }

    /// How many flags there are.
    pub fn len(&self) -> usize
        ensures value { result ≡ length self.now }
        ensures ascending { flag_sets.Ascend self.now }
    {
        self.flags.len()
    }

    /// Whether there is no flag.
    pub fn is_empty(&self) -> bool
        ensures { result ≡ (length self.now == 0) }
    {
        self.flags.is_empty()
    }

    /// The i-th flag, from 0.
    pub fn flag(&self, i: usize) -> &[u8]
        requires { i < length self.now }
        ensures { slice_get self.now i ≡ Some result.now }
    {
        self.flags[i].as_bytes()
    }

    /// Whether a flag is in the set.
    pub fn contains(&self, flag: &[u8]) -> bool
        ensures { result ≡ flag_sets.has_flag self.now flag.now }
    {
        is_at(&self.flags, place_of(&self.flags, flag), flag)
    }

    /// Puts a flag into the set, where it is not there yet. Without memory the set stays as it was.
    pub fn insert(&mut self, alloc: Global, flag: &[u8]) -> Result<(), Memory>
        ensures ok { OnOk result (self.new ≡ flag_sets.with_flag self.old flag.now) }
        ensures err { OnErr result (self.new ≡ self.old) }
    {
        let place = place_of(&self.flags, flag);
        if is_at(&self.flags, place, flag) {
            return Ok(());
        }
        let text = Text::copy_of(alloc, flag)?;
        self.flags.insert(place, text)?;
        Ok(())
    }

    /// Puts in each word of a text. Without memory the set stays as it was.
    pub fn insert_words(&mut self, alloc: Global, text: &[u8]) -> Result<(), Memory>
        ensures ok { OnOk result (self.new ≡ fold flag_sets.with_flag self.old (words_of text.now)) }
        ensures err { OnErr result (self.new ≡ self.old) }
    {
        let before = self.flags.len();
        match put_words(alloc, &mut self.flags, text) {
            Ok(()) => Ok(()),
            Err(refused) => {
                self.flags.truncate(before);
                Err(refused)
            }
        }
    }

    /// Puts in each flag of another set. Without memory the set stays as it was.
    pub fn insert_all(&mut self, alloc: Global, flags: &FlagSet) -> Result<(), Memory>
        ensures ok { OnOk result (self.new ≡ fold flag_sets.with_flag self.old flags.now) }
        ensures err { OnErr result (self.new ≡ self.old) }
    {
        self.flags = with_flags(alloc, &self.flags, &flags.flags)?;
        Ok(())
    }
}

impl FlagSet {
    /// The set of the flags that stand in the text with blanks between them. `BadValue` at the first argument that is no
    /// name of a flag, or that stands in the text before.
    pub fn read(alloc: Global, text: &[u8]) -> Result<FlagSet, ValueRefusal>
        ensures { Reads (flag_sets.flag_set text.now) result }
    {
        if let Some(place) = first_wrong_flag(alloc, 0, text)? {
            return Err(ValueRefusal::BadValue { place });
        }
        let mut set = FlagSet::new(alloc);
        set.insert_words(alloc, text)?;
        Ok(set)
    }

    /// Appends the flags, with single spaces between them. Without memory `out` stays as it was.
    pub fn push(&self, out: &mut Vec<u8>) -> Result<(), Memory>
        ensures ok { OnOk result (out.new.items ≡ out.old.items ++ flag_sets.set_text self.now) }
        ensures err { OnErr result (out.new.items ≡ out.old.items) }
        ensures room { vec_len out.old + length (flag_sets.set_text self.now) ≤ vec_capacity out.old → IsOk result }
        ensures capacity { vec_capacity out.old ≤ vec_capacity out.new }
    {
        let before = out.len();
        match push_flags(&self.flags, out) {
            Ok(()) => Ok(()),
            Err(refused) => {
                out.truncate(before);
                Err(refused)
            }
        }
    }
}

/// Appends flags, with single spaces between them. Without memory a part of them may stand there.
fn push_flags(flags: &[Text], out: &mut Vec<u8>) -> Result<(), Memory>
    ensures ok { OnOk result (out.new.items ≡ out.old.items ++ flag_sets.set_text flags.now) }
    ensures err { OnErr result (take (vec_len out.old) out.new.items ≡ out.old.items) }
    ensures room { vec_len out.old + length (flag_sets.set_text flags.now) ≤ vec_capacity out.old → IsOk result }
    ensures capacity { vec_capacity out.old ≤ vec_capacity out.new }
{
    let Some((first, rest)) = flags.split_first() else {
        return Ok(());
    };
    out.extend_from_slice(first.as_bytes())?;
    for flag in rest {
        out.push(b' ')?;
        out.extend_from_slice(flag.as_bytes())?;
    }
    Ok(())
}

/// How many of the flags of a set come before a flag. It is found by halves.
fn place_of(flags: &[Text], flag: &[u8]) -> usize
    requires { flag_sets.Ascend flags.now }
    ensures count { result ≡ lending.place_of flags.now flag.now }
    ensures within { result ≤ length flags.now }
{
    flags.partition_point(|other| other.as_bytes().cmp(flag).is_lt())
}

/// Whether a flag stands at a place.
fn is_at(flags: &[Text], place: usize, flag: &[u8]) -> bool
    ensures { result ≡ lending.is_at flags.now place flag.now }
{
    match flags.get(place) {
        Some(other) => other.as_bytes() == flag,
        None => false,
    }
}

/// Whether each flag of a set comes before a flag.
fn comes_last(flags: &[Text], flag: &[u8]) -> bool
    ensures { result ≡ lending.comes_last flags.now flag.now }
{
    match flags.last() {
        Some(last) => last.as_bytes().cmp(flag).is_lt(),
        None => true,
    }
}

/// Puts each word of a text into the flags of a set: behind them as long as the words ascend from there. Without memory
/// some words may stand behind the flags that were there.
fn put_words(alloc: Global, flags: &mut Vec<Text>, text: &[u8]) -> Result<(), Memory>
    requires { flag_sets.Ascend flags.old.items }
    ensures value { OnOk result (flags.new.items ≡ fold flag_sets.with_flag flags.old.items (words_of text.now)) }
    ensures err { OnErr result (take (vec_len flags.old) flags.new.items ≡ flags.old.items) }
    ensures ascending { flag_sets.Ascend flags.new.items }
{
    let mut arguments = Arguments::at(0, text);
    'arguments: while let Some(argument) = arguments.next() {
        if !comes_last(flags, argument.text) {
            *flags = with_arguments(alloc, flags, argument.text, arguments)?;
            return Ok(());
        }
        flags.push(Text::copy_of(alloc, argument.text)?)?;
    }
    Ok(())
}

/// The flags of a set with one more, and with each argument.
fn with_arguments(
    alloc: Global,
    flags: &[Text],
    flag: &[u8],
    arguments: Arguments<'_>,
) -> Result<Vec<Text>, Memory>
    requires { flag_sets.Ascend flags.now }
    ensures value { IfOk result (λ texts. texts.items ≡ fold flag_sets.with_flag (flag_sets.with_flag flags.now flag.now) (texts_of arguments.entry)) }
    ensures ascending { IfOk result (λ texts. flag_sets.Ascend texts.items) }
{
    let mut words = WordSet::of(alloc, flags)?;
    words.insert(flag)?;
    let mut arguments = arguments;
    'arguments: while let Some(argument) = arguments.next() {
        words.insert(argument.text)?;
    }
    words.copies(alloc)
}

/// The flags of a set with each of another.
fn with_flags(alloc: Global, flags: &[Text], others: &[Text]) -> Result<Vec<Text>, Memory>
    requires { flag_sets.Ascend flags.now }
    ensures value { IfOk result (λ texts. texts.items ≡ fold flag_sets.with_flag flags.now others.now) }
    ensures ascending { IfOk result (λ texts. flag_sets.Ascend texts.items) }
{
    let mut words = WordSet::of(alloc, flags)?;
    words.insert_all(others)?;
    words.copies(alloc)
}

/// A set of flags ascends.
pub fn sets_ascend()
    ensures { flag_sets.SetsAscend }
{}

/// A set has the flags of the list that it is made from, and no others.
pub fn sets_have_their_flags()
    ensures { flag_sets.SetsHaveTheirFlags }
{}
