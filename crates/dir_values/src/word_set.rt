// Sets of words that stand elsewhere.
ghost use Rattle.std.specs.{Prelude.{◌≡◌, [], not, IfOk, OnOk, OnErr}, List.fold};
ghost use Rattle.dir_values.specs.FlagSets as flag_sets;
ghost use Rattle.dir_values.specs.WordSets.{HasFirst};

use dir_bytes::{Memory, Text};
use std::alloc::Global;
use std::collections::BTreeSet;
use std::marker::Model;

/// A set of words, in ascending order of their bytes, borrowed from where they stand.
#[derive(Drop)]
pub struct WordSet<'a> {
    words: BTreeSet<&'a [u8]>,
}

impl<'a> Model for WordSet<'a> {
    ghost use Rattle.std.specs.Prelude.{List, ℕ};
    ghost use Rattle.dir_values.specs.{FlagSets.Ascend, WordSets.words_in};

    ghost Value = { List (List ℕ) };

    ghost view = { λ s. words_in s.words.keys };

    ghost invariant = { λ s. Ascend (words_in s.words.keys) };
}

impl<'a> WordSet<'a> {
    /// The set of no words.
    pub fn new(alloc: Global) -> WordSet<'a>
        ensures { result ≡ [] }
    {
        WordSet {
            words: BTreeSet::new(alloc),
        }
    }

    /// The set of flags that ascend.
    pub fn of(alloc: Global, flags: &'a [Text]) -> Result<WordSet<'a>, Memory>
        requires { flag_sets.Ascend flags.now }
        ensures { IfOk result (λ set. set ≡ flags.now) }
    {
        let mut set = WordSet::new(alloc);
        set.insert_all(flags)?;
        Ok(set)
    }

    /// Puts in each of some flags, one behind the other. Without memory so many of the first of them were put in, and
    /// nothing else has changed.
    pub fn insert_all(&mut self, flags: &'a [Text]) -> Result<(), Memory>
        ensures ok { OnOk result (self.new ≡ fold flag_sets.with_flag self.old flags.now) }
        ensures err { OnErr result (HasFirst self.old flags.now self.new) }
    {
        'flags: for flag in flags {
            self.insert(flag.as_bytes())?;
        }
        Ok(())
    }

    /// Puts a word into the set, and tells whether it was not there yet. Without memory the set stays as it was.
    pub fn insert(&mut self, word: &'a [u8]) -> Result<bool, Memory>
        ensures added { IfOk result (λ added. added ≡ not (flag_sets.has_flag self.old word.now)) }
        ensures ok { OnOk result (self.new ≡ flag_sets.with_flag self.old word.now) }
        ensures err { OnErr result (self.new ≡ self.old) }
    {
        Ok(self.words.insert(word)?)
    }

    /// Copies of the words, in their order.
    pub fn copies(&self, alloc: Global) -> Result<Vec<Text>, Memory>
        ensures value { IfOk result (λ copies. copies.items ≡ self.now) }
        ensures ascending { IfOk result (λ copies. flag_sets.Ascend copies.items) }
    {
        let mut copies = Vec::with_capacity(alloc, self.words.len())?;
        for word in &self.words {
            copies.push(Text::copy_of(alloc, word)?)?;
        }
        Ok(copies)
    }
}
