// Versions of Tor.
ghost use Rattle.std.specs.Prelude.{◌≡◌, ◌+◌, ◌≤◌, ◌++◌, IsOk, OnOk, OnErr, length, option_map, vec_len, vec_capacity};
ghost use Rattle.std.specs.{List.list_all, Option.option_cmp};
ghost use Rattle.dir_values.specs.Refusals.{or_bad_value};
ghost use Rattle.dir_values.specs.Versions as versions;

use crate::number::number_of;
use crate::parts::{after, before, has};
use crate::refusal::ValueRefusal;
use dir_bytes::Memory;
use std::cmp::Ordering;
use std::marker::Model;

/// A version of Tor, borrowed from its text: four numbers, and the tag, which is empty where there is none.
#[derive(Debug, Drop)]
pub struct TorVersion<'a> {
    major: u32,
    minor: u32,
    micro: u32,
    patch: u32,
    tag: &'a [u8],
    text: &'a [u8],
}

impl<'a> Model for TorVersion<'a> {
    ghost use Rattle.dir_values.specs.Versions.{Version};

    ghost Value = { Version };

    ghost view = { λ v. record { major = v.major; minor = v.minor; micro = v.micro; patch = v.patch; tag = v.tag.now; text = v.text.now } };
}

impl<'a> TorVersion<'a> {
    /// The version that a text spells: `MAJOR.MINOR.MICRO`, `.PATCH` where it is there, and `-TAG` where it is there.
    /// `BadValue`, at place 0, for any other text.
    pub fn read(text: &'a [u8]) -> Result<TorVersion<'a>, ValueRefusal>
        ensures { result ≡ or_bad_value (versions.version_of text.now) }
    {
        match version_of(text) {
            Some(version) => Ok(version),
            None => Err(ValueRefusal::BadValue { place: 0 }),
        }
    }

    /// Appends the text. Without memory `out` stays as it was.
    pub fn push(&self, out: &mut Vec<u8>) -> Result<(), Memory>
        ensures ok { OnOk result (out.new.items ≡ out.old.items ++ self.now.text) }
        ensures err { OnErr result (out.new.items ≡ out.old.items) }
        ensures room { vec_len out.old + length self.now.text ≤ vec_capacity out.old → IsOk result }
        ensures capacity { vec_capacity out.old ≤ vec_capacity out.new }
    {
        out.extend_from_slice(self.text)?;
        Ok(())
    }

    /// Compares two versions: by their numbers, then by their tags, then by their texts.
    pub fn compare(&self, other: &TorVersion<'_>) -> Ordering
        ensures { result ≡ versions.version_order self.now other.now }
    {
        self.major
            .cmp(&other.major)
            .then(self.minor.cmp(&other.minor))
            .then(self.micro.cmp(&other.micro))
            .then(self.patch.cmp(&other.patch))
            .then(self.tag.cmp(other.tag))
            .then(self.text.cmp(other.text))
    }
}

/// Compares two `v` values. One that names no version is older than each that does, and two such are ordered by their bytes.
#[tactic(auto, using(crate::proofs::VersionOrders::same_values_tie))]
pub fn compare_named(a: &[u8], b: &[u8]) -> Ordering
    ensures { result ≡ versions.named_order a.now b.now }
{
    if a == b {
        return Ordering::Equal;
    }
    compare_versions_in(a, b).then(a.cmp(b))
}

/// Compares the versions that two `v` values name; one that names none comes first.
fn compare_versions_in(a: &[u8], b: &[u8]) -> Ordering
    ensures { result ≡ option_cmp versions.version_order (versions.named_version a.now) (versions.named_version b.now) }
{
    match (named_version(a), named_version(b)) {
        (None, None) => Ordering::Equal,
        (None, Some(_)) => Ordering::Less,
        (Some(_), None) => Ordering::Greater,
        (Some(x), Some(y)) => x.compare(&y),
    }
}

/// The version that a `v` value names: `Tor`, a space and the version.
fn named_version(value: &[u8]) -> Option<TorVersion<'_>>
    ensures { result ≡ versions.named_version value.now }
{
    if value.len() >= 4 && &value[..4] == b"Tor ".as_slice() {
        version_of(&value[4..])
    } else {
        None
    }
}

/// The version that a text spells.
fn version_of(text: &[u8]) -> Option<TorVersion<'_>>
    ensures { result ≡ versions.version_of text.now }
{
    let numbers = before(text, b'-');
    let rest = after(numbers, b'.');
    let last = after(rest, b'.');
    let major = number_of(before(numbers, b'.'));
    let minor = number_of(before(rest, b'.'));
    let micro = number_of(before(last, b'.'));
    version_with(major, minor, micro, patch_in(last), tag_in(text), text)
}

/// The version of these numbers, this tag and this text, if all are there.
fn version_with<'a>(
    major: Option<u32>,
    minor: Option<u32>,
    micro: Option<u32>,
    patch: Option<u32>,
    tag: Option<&'a [u8]>,
    text: &'a [u8],
) -> Option<TorVersion<'a>>
    ensures { result ≡ versions.version_with major minor micro patch (option_map (λ t. t.now) tag.entry) text.now }
{
    let major = major?;
    let minor = minor?;
    let micro = micro?;
    let patch = patch?;
    let tag = tag?;
    Some(TorVersion {
        major,
        minor,
        micro,
        patch,
        tag,
        text,
    })
}

/// The last of the numbers, which is 0 where there are three of them. The text begins at the third.
fn patch_in(text: &[u8]) -> Option<u32>
    ensures { result ≡ versions.patch_in text.now }
{
    if has(text, b'.') {
        number_of(after(text, b'.'))
    } else {
        Some(0)
    }
}

/// The tag of a version, empty where it has none; None where what stands there is no tag.
fn tag_in(text: &[u8]) -> Option<&[u8]>
    ensures { option_map (λ tag. tag.now) result ≡ versions.tag_in text.now }
{
    if !has(text, b'-') {
        return Some(&[]);
    }
    let tag = after(text, b'-');
    if is_tag(tag) { Some(tag) } else { None }
}

/// Whether a text is a tag: one byte or more, of letters, digits, `-`, `.` and `+`.
fn is_tag(text: &[u8]) -> bool
    ensures { result ≡ versions.is_tag text.now }
{
    text.len() >= 1 && has_tag_bytes(text)
}

fn has_tag_bytes(text: &[u8]) -> bool
    ensures { result ≡ list_all versions.is_tag_byte text.now }
{
    text.iter().all(|byte| is_tag_byte(*byte))
}

fn is_tag_byte(byte: u8) -> bool
    ensures { result ≡ versions.is_tag_byte byte }
{
    byte.is_ascii_alphanumeric() || byte == b'-' || byte == b'.' || byte == b'+'
}
