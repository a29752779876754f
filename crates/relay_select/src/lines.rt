// The lines of entries, from which one is chosen.
ghost use Rattle.std.specs.{Prelude.{◌≡◌, ◌++◌, OnOk, option_map, OnErr}, Option.option_to_list, List.filter_map};
ghost use Rattle.compute_terms.specs.Lines as terms;
ghost use Rattle.relay_select.specs.Fields as fields;

use crate::micro::Micro;
use crate::tuple::RelayTuple;
use consensus_terms::is_34_or_later;
use dir_bytes::Memory;
use dir_values::{Digest1, Digest2};
use field_votes::{Ballot, Line, VersionLine};
use vote_doc::Entry;

/// A line of an entry.
#[derive(Clone, Copy, Debug)]
pub enum Field {
    /// The `pr` line.
    Protocols,
    /// The `p` line, where the entry has this digest.
    Policy(Digest1),
}

/// What an entry says in a line.
fn said<'a>(entry: &Entry<'a>, field: Field) -> Option<&'a [u8]>
    ensures { option_map (λ text. text.now) result ≡ fields.field_text field entry.now }
{
    match field {
        Field::Protocols => entry.pr(),
        Field::Policy(digest) => {
            if entry.digest().0 == digest.0 {
                entry.p()
            } else {
                None
            }
        }
    }
}

/// Replaces what is in `lines` by what these entries say in a line, as far as they have it.
pub fn texts<'a>(
    entries: &[Entry<'a>],
    field: Field,
    lines: &mut Vec<Line<'a>>,
) -> Result<(), Memory>
    ensures { OnOk result (lines.new.items ≡ filter_map (fields.field_text field) entries.now) }
{
    lines.clear();
    'entries: for entry in entries {
        push_text(lines, said(entry, field))?;
    }
    Ok(())
}

/// Replaces what is in `lines` by the `v` lines of these entries.
pub fn versions<'a>(entries: &[Entry<'a>], lines: &mut Vec<VersionLine<'a>>) -> Result<(), Memory>
    ensures { OnOk result (lines.new.items ≡ filter_map (λ e. e.version) entries.now) }
{
    lines.clear();
    'entries: for entry in entries {
        push_version(lines, entry.v())?;
    }
    Ok(())
}

/// Adds a `v` line, where there is one.
fn push_version<'a>(lines: &mut Vec<VersionLine<'a>>, text: Option<&'a [u8]>) -> Result<(), Memory>
    ensures ok { OnOk result (lines.new.items ≡ lines.old.items ++ option_to_list (option_map (λ t. t.now) text.entry)) }
    ensures err { OnErr result (lines.new.items ≡ lines.old.items) }
{
    if let Some(text) = text {
        lines.push(VersionLine::new(text))?;
    }
    Ok(())
}

/// Whether an address is one of IPv6.
fn is_ipv6(address: &[u8]) -> bool
    ensures { result ≡ terms.is_ipv6 address.now }
{
    address.starts_with(b"[")
}

/// The address of an `a` line, where it counts by this method.
fn counted_address<'a>(method: u32, address: Option<&'a [u8]>) -> Option<&'a [u8]>
    ensures { option_map (λ text. text.now) result ≡ terms.counted_address method (option_map (λ text. text.now) address.entry) }
{
    match address {
        Some(text) => {
            if is_34_or_later(method) && !is_ipv6(text) {
                None
            } else {
                Some(text)
            }
        }
        None => None,
    }
}

/// The first `a` line of an entry that has this tuple, where it counts by this method.
fn address_with<'a>(entry: &Entry<'a>, method: u32, tuple: &RelayTuple<'_>) -> Option<&'a [u8]>
    ensures { option_map (λ text. text.now) result ≡ terms.address_with method tuple.now entry.now }
{
    if RelayTuple::of(entry).compare(tuple).is_eq() {
        counted_address(method, entry.a())
    } else {
        None
    }
}

/// Replaces what is in `lines` by the first `a` lines of those of these entries that have this tuple, as far as they count.
pub fn addresses<'a>(
    entries: &[Entry<'a>],
    method: u32,
    tuple: &RelayTuple<'_>,
    lines: &mut Vec<Line<'a>>,
) -> Result<(), Memory>
    ensures { OnOk result (lines.new.items ≡ filter_map (terms.address_with method tuple.now) entries.now) }
{
    lines.clear();
    'entries: for entry in entries {
        push_text(lines, address_with(entry, method, tuple))?;
    }
    Ok(())
}

/// The microdescriptor of an entry that has this digest.
fn micro_with(entry: &Entry<'_>, method: u32, digest: Digest1) -> Option<Digest2>
    ensures { result ≡ terms.micro_with method digest entry.now }
{
    if entry.digest().0 == digest.0 {
        entry.m(method)
    } else {
        None
    }
}

/// Replaces what is in `digests` by the microdescriptors of those of these entries that have this digest.
pub fn micros(
    entries: &[Entry<'_>],
    method: u32,
    digest: Digest1,
    digests: &mut Vec<Micro>,
) -> Result<(), Memory>
    ensures { OnOk result (digests.new.items ≡ filter_map (terms.micro_with method digest) entries.now) }
{
    digests.clear();
    'entries: for entry in entries {
        push_micro(digests, micro_with(entry, method, digest))?;
    }
    Ok(())
}

/// Adds a text, where there is one.
fn push_text<'a>(lines: &mut Vec<Line<'a>>, text: Option<&'a [u8]>) -> Result<(), Memory>
    ensures ok { OnOk result (lines.new.items ≡ lines.old.items ++ option_to_list (option_map (λ t. t.now) text.entry)) }
    ensures err { OnErr result (lines.new.items ≡ lines.old.items) }
{
    if let Some(text) = text {
        lines.push(Line::new(text))?;
    }
    Ok(())
}

/// Adds a digest, where there is one.
fn push_micro(digests: &mut Vec<Micro>, digest: Option<Digest2>) -> Result<(), Memory>
    ensures ok { OnOk result (digests.new.items ≡ digests.old.items ++ option_to_list digest) }
    ensures err { OnErr result (digests.new.items ≡ digests.old.items) }
{
    if let Some(digest) = digest {
        digests.push(Micro::new(digest))?;
    }
    Ok(())
}
