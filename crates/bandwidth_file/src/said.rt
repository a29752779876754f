// What a line says.
ghost use Rattle.std.specs.Prelude.{◌≡◌, ◌+◌, ◌<◌, ◌^◌, length};
ghost use Rattle.bandwidth_file.specs.Files as files;
ghost use Rattle.bandwidth_file.specs.Relays as relays;
ghost use Rattle.bandwidth_file.specs.{declared.said.Said.TheVariants.Wrong, Lending.item_seen};
ghost use Rattle.bandwidth_file.specs.declared.section.Section.TheVariants as Section;
ghost use Rattle.dir_values.specs.{Numbers.number_of, Taking.argument_of};

use crate::items::Items;
use crate::refusal::{BandFault, BandReason, at};
use crate::section::{Section, is_separator, names_relay};
use dir_bytes::read_u64;
use dir_values::{Argument, Fingerprint, has, number_of};

/// The identity and the bandwidth that a relay line gives it, in kilobytes per second.
#[derive(Clone, Copy, Debug, PartialEq, Eq)]
pub struct Row {
    pub identity: Fingerprint,
    pub bandwidth: u32,
}

/// What a line says.
#[derive(Clone, Copy, Debug, PartialEq, Eq)]
pub enum Said {
    /// Nothing that counts.
    Nothing,
    /// The time of measuring, in seconds since 1970-01-01 00:00:00 UTC.
    Time { timestamp: u64 },
    /// A header.
    Header,
    /// A relay's bandwidth.
    Relay { row: Row },
    /// Something is wrong with it.
    Wrong { fault: BandFault },
}

/// What a line of a section says that has more than blanks.
pub(crate) fn filled_line(section: Section, place: u64, text: &[u8]) -> Said
    requires { place + length text.now < 2 ^ 64 }
    ensures { result ≡ files.filled_line section place text.now }
{
    match section {
        Section::Time => time_line(place, text),
        Section::Headers => header_line(place, text),
        Section::Relays => relay_line(place, text),
    }
}

/// What the first line says.
fn time_line(place: u64, text: &[u8]) -> Said
    ensures { result ≡ files.filled_line Section.Time place text.now }
{
    match read_u64(text) {
        Ok(timestamp) => Said::Time { timestamp },
        Err(_) => wrong(place, BandReason::Timestamp),
    }
}

/// What a line of the header says, or the one that ends it.
fn header_line(place: u64, text: &[u8]) -> Said
    requires { place + length text.now < 2 ^ 64 }
    ensures { result ≡ files.header_line place text.now }
{
    if is_separator(text) {
        return Said::Nothing;
    }
    if names_relay(text) {
        return relay_line(place, text);
    }
    if has(text, b'=') {
        Said::Header
    } else {
        wrong(place, BandReason::Header)
    }
}

/// What a relay line says.
fn relay_line(place: u64, text: &[u8]) -> Said
    requires { place + length text.now < 2 ^ 64 }
    ensures { result ≡ relays.relay_line place text.now }
{
    let items = Items::of(place, text);
    let Some(node) = items.node else {
        return Said::Nothing;
    };
    let Some(band) = items.band else {
        return Said::Nothing;
    };
    if is_no_vote(items.vote) {
        return Said::Nothing;
    }
    row_said(node, band)
}

/// Whether a relay is not to be voted on.
fn is_no_vote(value: Option<Argument<'_>>) -> bool
    ensures { result ≡ relays.is_no_vote (item_seen value.entry) }
{
    match value {
        Some(value) => value.text == b"0".as_slice(),
        None => false,
    }
}

/// An identity and a bandwidth, or the earlier value of those that spell none.
fn row_said(node: Argument<'_>, band: Argument<'_>) -> Said
    ensures { result ≡ relays.row_said (argument_of node.entry) (argument_of band.entry)
        (relays.identity_in node.entry.text.now) (number_of band.entry.text.now) }
{
    match (identity_in(node.text), number_of(band.text)) {
        (Some(identity), Some(bandwidth)) => Said::Relay {
            row: Row {
                identity,
                bandwidth,
            },
        },
        (None, Some(_)) => wrong(node.place, BandReason::Value),
        (Some(_), None) => wrong(band.place, BandReason::Value),
        (None, None) => wrong(node.place.min(band.place), BandReason::Value),
    }
}

/// The identity that a value spells, with a `$` in front or without.
fn identity_in(text: &[u8]) -> Option<Fingerprint>
    ensures { result ≡ relays.identity_in text.now }
{
    let digits = if text.starts_with(b"$") {
        &text[1..]
    } else {
        text
    };
    Fingerprint::read(digits).ok()
}

/// Something is wrong at this place.
fn wrong(place: u64, reason: BandReason) -> Said
    ensures { result ≡ Wrong (record { place = place; reason = reason }) }
{
    Said::Wrong {
        fault: at(place, reason),
    }
}
