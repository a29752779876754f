// Lists of versions of Tor.
ghost use Rattle.std.specs.Prelude.{◌≡◌, ◌==◌, ◌+◌, ◌<◌, ◌≤◌, ◌++◌, ◌^◌, ◌∷◌, [], Some, IfOk, IsOk, OnOk, OnErr};
ghost use Rattle.std.specs.Prelude.{length, slice_get, vec_len, vec_capacity};
ghost use Rattle.dir_values.specs.{Arguments.arguments_at, FlagSets.has_flag, Refusals.Reads};
ghost use Rattle.text_page.specs.Pages.{with_text};
ghost use Rattle.list_values.specs.Parts.{parts_of};
ghost use Rattle.list_values.specs.VersionLists as versions;

use crate::parts::Parts;
use crate::spelled::{push_joined, put_joined};
use dir_bytes::{Memory, Text};
use dir_values::{Arguments, TorVersion, ValueRefusal};
use std::alloc::Global;
use std::marker::Model;
use text_page::Page;

/// A list of versions of Tor. Contracts see it as the list of their texts.
#[derive(Debug, Drop)]
pub struct VersionList {
    versions: Vec<Text>,
}

impl Model for VersionList {
    ghost use Rattle.std.specs.Prelude.{List, ℕ};

    ghost Value = { List (List ℕ) };

    ghost view = { λ s. s.versions.items };
}

impl VersionList {
    /// The list of these versions.
    pub fn new(versions: Vec<Text>) -> VersionList
        ensures { result ≡ versions.items }
    {
        VersionList { versions }
    }

    /// How many versions there are.
    pub fn len(&self) -> usize
        ensures { result ≡ length self.now }
    {
        self.versions.len()
    }

    /// Whether there is no version.
    pub fn is_empty(&self) -> bool
        ensures { result ≡ (length self.now == 0) }
    {
        self.versions.is_empty()
    }

    /// The i-th version, from 0.
    pub fn version(&self, i: usize) -> &[u8]
        requires { i < length self.now }
        ensures { slice_get self.now i ≡ Some result.now }
    {
        self.versions[i].as_bytes()
    }

    /// Whether a version is in the list, by its text.
    pub fn contains(&self, version: &[u8]) -> bool
        ensures { result ≡ has_flag self.now version.now }
    {
        self.versions
            .iter()
            .any(|other| other.as_bytes() == version)
    }

    /// The same versions again.
    ///
    /// # Errors
    /// `Memory` is want of memory.
    pub fn copy(&self, alloc: Global) -> Result<VersionList, Memory>
        ensures { IfOk result (λ copy. copy ≡ self.now) }
    {
        let versions = copies_of(alloc, &self.versions)?;
        Ok(VersionList { versions })
    }

    /// The versions that stand in a text with commas between them: those of its first argument, and none where it has none.
    ///
    /// # Errors
    /// `BadValue` at that argument where a part of it is no version. `Memory` is want of memory.
    pub fn read(alloc: Global, text: &[u8]) -> Result<VersionList, ValueRefusal>
        ensures { Reads (versions.version_list text.now) result }
    {
        let Some(list) = Arguments::at(0, text).next() else {
            return Ok(VersionList {
                versions: Vec::new(alloc),
            });
        };
        if !are_versions(list.text) {
            return Err(ValueRefusal::BadValue { place: list.place });
        }
        let versions = parts_in(alloc, list.text)?;
        Ok(VersionList { versions })
    }

    /// Puts the versions on a page, with commas between them.
    pub fn put(&self, page: &mut Page)
        ensures { page.new ≡ with_text page.old (versions.versions_text self.now) }
    {
        put_joined(page, &self.versions, b',');
    }

    /// Appends the versions, with commas between them. Without memory `out` stays as it was.
    ///
    /// # Errors
    /// `Memory` is want of memory.
    pub fn push(&self, out: &mut Vec<u8>) -> Result<(), Memory>
        ensures ok { OnOk result (out.new.items ≡ out.old.items ++ versions.versions_text self.now) }
        ensures err { OnErr result (out.new.items ≡ out.old.items) }
        ensures room { vec_len out.old + length (versions.versions_text self.now) ≤ vec_capacity out.old → IsOk result }
        ensures capacity { vec_capacity out.old ≤ vec_capacity out.new }
    {
        push_joined(&self.versions, b',', out)
    }
}

/// The place of the first argument of a text, which begins at this place, where it is no list of versions. None where it is
/// one, or there is no argument.
pub fn wrong_version_list(start: u64, text: &[u8]) -> Option<u64>
    requires { start + length text.now < 2 ^ 64 }
    ensures { result ≡ versions.wrong_version_list (arguments_at start text.now) }
{
    match Arguments::at(start, text).next() {
        Some(list) if !are_versions(list.text) => Some(list.place),
        _ => None,
    }
}

/// Whether each part of a text between its commas is a version.
fn are_versions(text: &[u8]) -> bool
    ensures { result ≡ versions.are_versions text.now }
{
    let mut parts = Parts::of(text);
    'parts: while let Some(part) = parts.next() {
        if TorVersion::read(part).is_err() {
            return false;
        }
    }
    true
}

/// Copies of the parts of a text between its commas.
///
/// # Errors
/// `Memory` is want of memory.
fn parts_in(alloc: Global, text: &[u8]) -> Result<Vec<Text>, Memory>
    ensures { IfOk result (λ copies. copies.items ≡ parts_of text.now) }
{
    let mut copies = Vec::new(alloc);
    let mut parts = Parts::of(text);
    'parts: while let Some(part) = parts.next() {
        copies.push(Text::copy_of(alloc, part)?)?;
    }
    Ok(copies)
}

/// Copies of texts.
///
/// # Errors
/// `Memory` is want of memory.
fn copies_of(alloc: Global, texts: &[Text]) -> Result<Vec<Text>, Memory>
    ensures { IfOk result (λ copies. copies.items ≡ texts.now) }
{
    let mut copies = Vec::with_capacity(alloc, texts.len())?;
    for text in texts {
        copies.push(Text::copy_of(alloc, text.as_bytes())?)?;
    }
    Ok(copies)
}
