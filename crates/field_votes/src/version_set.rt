// Sets of versions that stand elsewhere.
ghost use Rattle.std.specs.{Prelude.{◌≡◌, ◌<◌, [], filter, IfOk, OnOk}, List.fold};
ghost use Rattle.dir_values.specs.FlagSets.{has_flag};
ghost use Rattle.field_votes.specs.Versions as counts;

use crate::version_text::VersionText;
use dir_bytes::{Memory, Text};
use list_values::VersionList;
use std::alloc::Global;
use std::collections::BTreeSet;
use std::marker::Model;

/// A set of versions, in ascending order, borrowed from where they stand. Contracts see it as the list of their texts.
#[derive(Drop)]
pub(crate) struct VersionSet<'a> {
    texts: BTreeSet<VersionText<'a>>,
}

impl<'a> Model for VersionSet<'a> {
    ghost use Rattle.std.specs.Prelude.{List, ℕ};
    ghost use Rattle.field_votes.specs.VersionSets.{texts_in};

    ghost Value = { List (List ℕ) };

    ghost view = { λ s. texts_in s.texts.keys };
}

impl<'a> VersionSet<'a> {
    /// The set of no versions.
    pub(crate) fn new(alloc: Global) -> VersionSet<'a>
        ensures { result ≡ [] }
    {
        VersionSet {
            texts: BTreeSet::new(alloc),
        }
    }

    /// Puts in a version, where it is not there yet.
    ///
    /// # Errors
    /// `Memory` is want of memory.
    pub(crate) fn insert(&mut self, text: &'a [u8]) -> Result<(), Memory>
        ensures { OnOk result (self.new ≡ counts.with_version self.old text.now) }
    {
        self.texts.insert(VersionText { text })?;
        Ok(())
    }

    /// Puts in the versions of a list.
    ///
    /// # Errors
    /// `Memory` is want of memory; some of them may have been put in.
    pub(crate) fn insert_all(&mut self, list: &'a VersionList) -> Result<(), Memory>
        ensures { OnOk result (self.new ≡ fold counts.with_version self.old list.now) }
    {
        'versions: for i in 0..list.len() {
            self.insert(list.version(i))?;
        }
        Ok(())
    }

    /// Whether a version is in the set, by its text.
    pub(crate) fn contains(&self, text: &'a [u8]) -> bool
        ensures { result ≡ has_flag self.now text.now }
    {
        self.texts.contains(&VersionText { text })
    }

    /// Copies of the versions that more than half of some sets have, in their order.
    ///
    /// # Errors
    /// `Memory` is want of memory.
    pub(crate) fn copies_by_most(
        &self,
        alloc: Global,
        sets: &[VersionSet<'a>],
    ) -> Result<Vec<Text>, Memory>
        ensures { IfOk result (λ copies. copies.items ≡ filter (counts.is_listed_by_most sets.now) self.now) }
    {
        let mut copies = Vec::new(alloc);
        for version in &self.texts {
            if is_listed_by_most(sets, version.text) {
                copies.push(Text::copy_of(alloc, version.text)?)?;
            }
        }
        Ok(copies)
    }
}

/// Whether more than half of some sets have a version.
fn is_listed_by_most<'a>(sets: &[VersionSet<'a>], text: &'a [u8]) -> bool
    ensures { result ≡ counts.is_listed_by_most sets.now text.now }
{
    listing_count(sets, text) > sets.len() / 2
}

/// How many sets have a version.
fn listing_count<'a>(sets: &[VersionSet<'a>], text: &'a [u8]) -> usize
    ensures { result ≡ counts.listing_count sets.now text.now }
{
    let mut count = 0;
    'sets: for set in sets {
        if set.contains(text) {
            count += 1;
        }
    }
    count
}
