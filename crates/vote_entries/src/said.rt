// What the items of an entry say. Where an item is not there, or says something else, its value is nothing.
ghost use Rattle.std.specs.Prelude.{◌≡◌, ◌≤◌, ◌++◌, OnErr, OnOk, length, take};
ghost use Rattle.frame_values.specs.Values.{item_at};
ghost use Rattle.vote_entries.specs.Saying as saying;

use crate::row::KeptMicro;
use dir_values::{Digest1, Fingerprint};
use frame_terms::{Keyword, Taken};
use frame_values::{Span, Value, nowhere, own_at};
use relay_entries::{Bandwidths, EdOpinion, EntryValue, MicroLine, RelayLine};
use std::alloc::AllocError;
use vote_frame::VoteValue;

/// A relay of which nothing is known.
fn no_relay() -> RelayLine
    ensures { result ≡ saying.no_relay }
{
    RelayLine {
        nickname: nowhere(),
        identity: Fingerprint([0; 20]),
        digest: Digest1([0; 20]),
        published: 0,
        ip: 0,
        or_port: 0,
        dir_port: 0,
    }
}

/// The relay.
pub fn relay_at(taken: &[Taken<Value<VoteValue>>]) -> RelayLine
    ensures { result ≡ saying.relay_in (item_at taken.now Keyword.R) }
{
    match own_at(taken, Keyword::R) {
        Some(VoteValue::Entry(EntryValue::Relay(relay))) => relay,
        _ => no_relay(),
    }
}

/// The bandwidths, where the entry gives them.
pub fn bandwidths_at(taken: &[Taken<Value<VoteValue>>]) -> Option<Bandwidths>
    ensures { result ≡ saying.bandwidths_in (item_at taken.now Keyword.W) }
{
    match own_at(taken, Keyword::W) {
        Some(VoteValue::Entry(EntryValue::Bandwidths(bandwidths))) => Some(bandwidths),
        _ => None,
    }
}

/// What is said of the relay's Ed25519 identity.
pub fn ed_at(taken: &[Taken<Value<VoteValue>>]) -> EdOpinion
    ensures { result ≡ saying.ed_in (item_at taken.now Keyword.Id) }
{
    match own_at(taken, Keyword::Id) {
        Some(VoteValue::Entry(EntryValue::Ed(opinion))) => opinion,
        _ => EdOpinion::Absent,
    }
}

/// Where the text of an item stands, if it is an `a` line.
fn address_if(one: &Taken<Value<VoteValue>>) -> Option<Span>
    ensures { result ≡ saying.address_if one.now }
{
    if !one.keyword.same(Keyword::A) {
        return None;
    }
    match one.value {
        Value::Text(span) => Some(span),
        _ => None,
    }
}

/// Appends where the texts of all `a` lines stand.
///
/// # Errors
/// There was no memory.
pub fn push_addresses(
    out: &mut Vec<Span>,
    taken: &[Taken<Value<VoteValue>>],
) -> Result<(), AllocError>
    ensures ok { OnOk result (out.new.items ≡ out.old.items ++ saying.addresses_in taken.now) }
    ensures err { OnErr result (take (length out.old.items) out.new.items ≡ out.old.items) }
    ensures grown { length out.old.items ≤ length out.new.items }
{
    for one in taken {
        if let Some(span) = address_if(one) {
            out.push(span)?;
        }
    }
    Ok(())
}

/// What is kept of an `m` line, if it gives a SHA-256.
fn kept_micro(line: MicroLine) -> Option<KeptMicro>
    ensures { result ≡ saying.micro_with line.methods line.digest }
{
    Some(KeptMicro {
        methods: line.methods,
        digest: line.digest?,
    })
}

/// What is kept of a value, if it is such a line.
fn micro_if(value: Value<VoteValue>) -> Option<KeptMicro>
    ensures { result ≡ saying.micro_if value }
{
    match value {
        Value::Own(VoteValue::Entry(EntryValue::Micro(line))) => kept_micro(line),
        _ => None,
    }
}

/// Appends what is kept of all `m` lines that give a SHA-256.
///
/// # Errors
/// There was no memory.
pub fn push_micros(
    out: &mut Vec<KeptMicro>,
    taken: &[Taken<Value<VoteValue>>],
) -> Result<(), AllocError>
    ensures ok { OnOk result (out.new.items ≡ out.old.items ++ saying.micros_in taken.now) }
    ensures err { OnErr result (take (length out.old.items) out.new.items ≡ out.old.items) }
    ensures grown { length out.old.items ≤ length out.new.items }
{
    for one in taken {
        if let Some(line) = micro_if(one.value) {
            out.push(line)?;
        }
    }
    Ok(())
}
