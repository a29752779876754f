// An entry of a vote.
ghost use Rattle.std.specs.{Prelude.{◌≡◌, ◌≤◌, ◌<◌, ◌^◌, length, map, nat_eq, option_map}, List.{find, list_any}};
ghost use Rattle.dir_bytes.specs.Causes.{last_moment};
ghost use Rattle.dir_values.specs.FlagSets.{as_set};
ghost use Rattle.item_terms.specs.Words.{words_of};
ghost use Rattle.relay_entries.specs.Fields.{methods_in};
ghost use Rattle.vote_terms.specs.Entries as entries;
ghost use Rattle.vote_terms.specs.declared.entry.MicroFacts.{MicroFacts};
ghost use Rattle.vote_entries.specs.{Entries.{entry_in, micro_in}, Rows.kept_in};

use crate::facts::number_in;
use crate::row::{EntryRow, KeptMicro};
use dir_values::{Digest1, Digest2, Fingerprint};
use frame_values::{Span, moment, part, part_if};
use relay_entries::{EdOpinion, Parts};
use std::marker::Model;

/// An entry of a vote, borrowed from it: its texts are slices of the vote's bytes.
#[derive(Drop)]
pub struct Entry<'a> {
    pub(crate) bytes: &'a [u8],
    pub(crate) row: &'a EntryRow,
    pub(crate) addresses: &'a [Span],
    pub(crate) micros: &'a [KeptMicro],
}

impl<'a> Model for Entry<'a> {
    ghost use Rattle.std.specs.Prelude.{◌<◌, ◌^◌, length};
    ghost use Rattle.vote_terms.specs.declared.entry.EntryFacts.{EntryFacts};
    ghost use Rattle.vote_entries.specs.{Entries.entry_in, Rows.kept_in};

    ghost Value = { EntryFacts };

    ghost view = { λ e. entry_in e.bytes.now (kept_in e.row.now e.addresses.now e.micros.now) };

    ghost invariant = { λ e. length e.bytes.now < 2 ^ 62 };
}

impl<'a> Entry<'a> {
    /// The entry of these bytes of which this was kept.
    pub(crate) fn new(
        bytes: &'a [u8],
        row: &'a EntryRow,
        addresses: &'a [Span],
        micros: &'a [KeptMicro],
    ) -> Entry<'a>
        requires { length bytes.now < 2 ^ 62 }
        ensures { result ≡ entry_in bytes.now (kept_in row.now addresses.now micros.now) }
    {
        Entry {
            bytes,
            row,
            addresses,
            micros,
        }
    }

    /// The relay's nickname.
    pub fn nickname(&self) -> &'a [u8]
        ensures { result.now ≡ self.now.nickname }
    {
        part(self.bytes, self.row.relay.nickname)
    }

    /// The relay's RSA identity.
    pub fn identity(&self) -> Fingerprint
        ensures { result ≡ self.now.identity }
    {
        self.row.relay.identity
    }

    /// The digest of the relay's descriptor.
    pub fn digest(&self) -> Digest1
        ensures { result ≡ self.now.digest }
    {
        self.row.relay.digest
    }

    /// When the descriptor was published, in seconds since 1970-01-01 00:00:00 UTC.
    pub fn published(&self) -> u64
        ensures value { result ≡ self.now.published }
        ensures within { result ≤ last_moment }
    {
        moment(self.row.relay.published)
    }

    /// The relay's IPv4 address, its first byte highest.
    pub fn ip(&self) -> u32
        ensures { result ≡ self.now.ip }
    {
        self.row.relay.ip
    }

    /// The relay's onion routing port.
    pub fn or_port(&self) -> u16
        ensures { result ≡ self.now.or_port }
    {
        self.row.relay.or_port
    }

    /// The relay's directory port.
    pub fn dir_port(&self) -> u16
        ensures { result ≡ self.now.dir_port }
    {
        self.row.relay.dir_port
    }

    /// The relay's first further address, with its port, where there is one.
    pub fn a(&self) -> Option<&'a [u8]>
        ensures { option_map (λ text. text.now) result ≡ entries.first_address self.now }
    {
        match self.addresses {
            [] => None,
            [first, ..] => Some(part(self.bytes, *first)),
        }
    }

    /// The text of the `s` line.
    pub fn flags(&self) -> &'a [u8]
        ensures set { as_set (words_of result.now) ≡ self.now.flags }
        ensures within { length result.now < 2 ^ 62 }
    {
        part(self.bytes, self.row.flags)
    }

    /// The text of the `v` line, where there is one.
    pub fn v(&self) -> Option<&'a [u8]>
        ensures { option_map (λ text. text.now) result ≡ self.now.version }
    {
        part_if(self.bytes, self.row.version)
    }

    /// The text of the `pr` line, where there is one.
    pub fn pr(&self) -> Option<&'a [u8]>
        ensures { option_map (λ text. text.now) result ≡ self.now.protocols }
    {
        part_if(self.bytes, self.row.protocols)
    }

    /// The text of the `p` line, where there is one.
    pub fn p(&self) -> Option<&'a [u8]>
        ensures { option_map (λ text. text.now) result ≡ self.now.policy }
    {
        part_if(self.bytes, self.row.policy)
    }

    /// The bandwidth that the relay says it has, in kilobytes per second, where the entry gives it.
    pub fn bandwidth(&self) -> Option<u32>
        ensures { result ≡ entries.bandwidth_of self.now }
    {
        match self.row.bandwidths {
            Some(said) => said.bandwidth,
            None => None,
        }
    }

    /// The bandwidth that was measured, in kilobytes per second, where the entry gives it.
    pub fn measured(&self) -> Option<u32>
        ensures { result ≡ entries.measured_of self.now }
    {
        match self.row.bandwidths {
            Some(said) => said.measured,
            None => None,
        }
    }

    /// The digest of the relay's microdescriptor under a consensus method, where the entry gives it.
    pub fn m(&self, method: u32) -> Option<Digest2>
        ensures { result ≡ entries.micro_for method self.now }
    {
        micro_for(self.bytes, self.micros, method)
    }

    /// What the entry says of the relay's Ed25519 identity.
    pub fn ed(&self) -> EdOpinion
        ensures { result ≡ self.now.ed }
    {
        self.row.ed
    }
}

/// The digest of the first of these lines that gives one for a method.
fn micro_for(bytes: &[u8], micros: &[KeptMicro], method: u32) -> Option<Digest2>
    ensures { result ≡ option_map (λ (line : MicroFacts). line.digest) (find (entries.gives method) (map (micro_in bytes.now) micros.now)) }
{
    for line in micros {
        if gives(bytes, line, method) {
            return Some(line.digest);
        }
    }
    None
}

/// Whether a line gives its digest for a method.
fn gives(bytes: &[u8], line: &KeptMicro, method: u32) -> bool
    ensures { result ≡ entries.gives method (micro_in bytes.now line.now) }
{
    lists(method, part(bytes, line.methods))
}

/// Whether a text of numbers with commas between them lists this one.
fn lists(method: u32, text: &[u8]) -> bool
    ensures { result ≡ list_any (λ other. nat_eq other method) (methods_in text.now) }
{
    let mut parts = Parts::of(text);
    'parts: while let Some(part) = parts.next() {
        if number_in(part) == method {
            return true;
        }
    }
    false
}
