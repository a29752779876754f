// What the entries of a vote say, in values of their own.
ghost use Rattle.std.specs.Prelude.{◌≡◌, ◌<◌, ◌^◌, IfOk, length, map, option_map};
ghost use Rattle.item_terms.specs.Words.{words_of};
ghost use Rattle.dir_values.specs.FlagSets.{as_set};
ghost use Rattle.dir_values.specs.Numbers as numbers;
ghost use Rattle.frame_values.specs.Parts as parts;
ghost use Rattle.relay_entries.specs.Fields.{methods_in};
ghost use Rattle.vote_entries.specs.Entries.{entry_in, micro_in};

use crate::entry::Entry;
use crate::row::KeptMicro;
use crate::rows::Rows;
use dir_bytes::{Memory, Seq, Text};
use dir_values::{FlagSet, number_of};
use frame_values::{Span, copy_part, copy_part_if, part};
use relay_entries::Parts;
use std::alloc::Global;
use vote_terms::{EntryFacts, MicroFacts};

/// The set of the words of a text.
///
/// # Errors
/// `Memory` is want of memory.
pub fn set_of(alloc: Global, text: &[u8]) -> Result<FlagSet, Memory>
    requires { length text.now < 2 ^ 62 }
    ensures { IfOk result (λ set. set ≡ as_set (words_of text.now)) }
{
    let mut set = FlagSet::new(alloc);
    set.insert_words(alloc, text)?;
    Ok(set)
}

/// The number that a part of a list spells, and 0 of another text.
pub(crate) fn number_in(text: &[u8]) -> u32
    ensures { result ≡ numbers.number_in text.now }
{
    match number_of(text) {
        Some(number) => number,
        None => 0,
    }
}

/// The numbers that a text spells between its commas.
fn methods_of(alloc: Global, text: &[u8]) -> Result<Seq<u32>, Memory>
    ensures { IfOk result (λ methods. methods ≡ methods_in text.now) }
{
    let mut methods = Seq::new(Vec::new(alloc));
    let mut parts = Parts::of(text);
    'parts: while let Some(part) = parts.next() {
        methods.push(number_in(part))?;
    }
    Ok(methods)
}

/// Copies of the texts that stand in these spans.
fn texts_of(alloc: Global, bytes: &[u8], spans: &[Span]) -> Result<Seq<Text>, Memory>
    ensures { IfOk result (λ texts. texts ≡ map (parts.part bytes.now) spans.now) }
{
    let mut texts = Vec::with_capacity(alloc, spans.len())?;
    for span in spans {
        texts.push(copy_part(alloc, bytes, *span)?)?;
    }
    Ok(Seq::new(texts))
}

/// What these `m` lines say.
fn micros_of(alloc: Global, bytes: &[u8], lines: &[KeptMicro]) -> Result<Seq<MicroFacts>, Memory>
    ensures { IfOk result (λ micros. micros ≡ map (micro_in bytes.now) lines.now) }
{
    let mut micros = Vec::with_capacity(alloc, lines.len())?;
    for line in lines {
        let methods = methods_of(alloc, part(bytes, line.methods))?;
        micros.push(MicroFacts {
            methods,
            digest: line.digest,
        })?;
    }
    Ok(Seq::new(micros))
}

impl<'a> Entry<'a> {
    /// What the entry says, in values of its own.
    ///
    /// # Errors
    /// `Memory` is want of memory.
    pub fn facts(&self, alloc: Global) -> Result<EntryFacts, Memory>
        ensures { IfOk result (λ facts. facts ≡ self.now) }
    {
        let row = self.row;
        Ok(EntryFacts {
            nickname: copy_part(alloc, self.bytes, row.relay.nickname)?,
            identity: row.relay.identity,
            digest: row.relay.digest,
            published: self.published(),
            ip: row.relay.ip,
            or_port: row.relay.or_port,
            dir_port: row.relay.dir_port,
            addresses: texts_of(alloc, self.bytes, self.addresses)?,
            flags: set_of(alloc, self.flags())?,
            version: copy_part_if(alloc, self.bytes, row.version)?,
            protocols: copy_part_if(alloc, self.bytes, row.protocols)?,
            bandwidths: row.bandwidths,
            policy: copy_part_if(alloc, self.bytes, row.policy)?,
            micros: micros_of(alloc, self.bytes, self.micros)?,
            ed: row.ed,
        })
    }
}

impl Rows {
    /// What the entries say, whose texts stand in these bytes, in values of their own.
    ///
    /// # Errors
    /// `Memory` is want of memory.
    pub fn facts(&self, alloc: Global, bytes: &[u8]) -> Result<Seq<EntryFacts>, Memory>
        requires { length bytes.now < 2 ^ 62 }
        ensures { IfOk result (λ facts. facts ≡ map (entry_in bytes.now) self.now) }
    {
        let mut facts = Vec::with_capacity(alloc, self.len())?;
        for i in 0..self.len() {
            facts.push(self.entry(bytes, i).facts(alloc)?)?;
        }
        Ok(Seq::new(facts))
    }
}
