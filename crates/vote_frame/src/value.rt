// What the items of a vote say, and what is remembered of them.
ghost use Rattle.std.specs.Prelude.{◌≡◌};
ghost use Rattle.dirdoc_grammar.specs.Seen.{seen_item, IsInside};
ghost use Rattle.frame_terms.specs.Refusals.{Becomes};
ghost use Rattle.frame_reader.specs.Giving as giving;
ghost use Rattle.frame_reader.specs.Giving.{Gives};
ghost use Rattle.frame_values.specs.Faults as faults;
ghost use Rattle.relay_entries.specs.Lines as lines;
ghost use Rattle.vote_frame.specs.Tables as tables;

use crate::across::{Across, note_random};
use crate::frame::{VoteKind, VoteValue};
use authority_certs::{CertKind, cert_value};
use dirdoc_grammar::Item;
use frame_reader::given;
use frame_terms::{FrameFault, Limit, ReadRefusal};
use frame_values::{
    Value, at_place, delays_of, literal, numbers_of, rest_of, signature_of, source_of, time_of,
    too_many,
};
use relay_entries::{
    EntryKind, EntryValue, Listed, entry_value, flags_of, note_entry, too_many_entries,
};
use value_groups::{params_of, protocols_of, random_of, versions_of};

/// What an item of an entry says, as a vote does.
fn lifted(said: Value<EntryValue>) -> Value<VoteValue>
    ensures { result ≡ lines.lifted_entry_value VoteValue.Entry said }
{
    match said {
        Value::Nothing => Value::Nothing,
        Value::Text(span) => Value::Text(span),
        Value::Number(number) => Value::Number(number),
        Value::Fingerprint(identity) => Value::Fingerprint(identity),
        Value::Object(lines) => Value::Object(lines),
        Value::Own(said) => Value::Own(VoteValue::Entry(said)),
    }
}

/// A value, or the refusal at the place of what is wrong.
fn at<V>(value: Result<V, u64>) -> Result<V, ReadRefusal>
    ensures { result ≡ giving.given_result (faults.at_place value) }
{
    given(at_place(value))
}

/// What an item of the kind `Delays` says.
fn delays_value(item: &Item<'_>) -> Result<Value<VoteValue>, ReadRefusal>
    requires { IsInside item.now }
    ensures { Gives (faults.at_place (tables.value_at VoteKind.Delays (seen_item item.now))) result }
{
    let (vote, distribution) = at(delays_of(item))?;
    Ok(Value::Own(VoteValue::Delays(vote, distribution)))
}

/// What an item of the kind `Source` says.
fn source_value(item: &Item<'_>) -> Result<Value<VoteValue>, ReadRefusal>
    requires { IsInside item.now }
    ensures { Gives (faults.at_place (tables.value_at VoteKind.Source (seen_item item.now))) result }
{
    let source = at(source_of(item))?;
    Ok(Value::Own(VoteValue::Source(source)))
}

/// What an item of the kind `Signature` says.
fn signature_value(item: &Item<'_>) -> Result<Value<VoteValue>, ReadRefusal>
    requires { IsInside item.now }
    ensures { Gives (faults.at_place (tables.value_at VoteKind.Signature (seen_item item.now))) result }
{
    let signature = at(signature_of(item))?;
    Ok(Value::Own(VoteValue::Signature(signature)))
}

/// What an item of a certificate says.
fn certificate_value(kind: CertKind, item: &Item<'_>) -> Result<Value<VoteValue>, ReadRefusal>
    requires { IsInside item.now }
    ensures { Gives (faults.at_place (tables.value_at (VoteKind.Certificate kind) (seen_item item.now))) result }
{
    at(cert_value(kind, item))
}

/// What an item of an entry says, as a vote does, or want of memory.
fn lifted_value(
    listed: &Listed,
    kind: EntryKind,
    item: &Item<'_>,
) -> Result<Value<VoteValue>, ReadRefusal>
    requires { IsInside item.now }
    ensures { Gives (faults.at_place (tables.value_at (VoteKind.Entry kind) (seen_item item.now))) result }
{
    Ok(lifted(entry_value(listed, kind, item)?))
}

/// What an item says, or the place of what is wrong. A kind that says much is read in a function of its own, so that the
/// room for it is taken for such items alone.
pub(crate) fn value_at(
    listed: &Listed,
    kind: VoteKind,
    item: &Item<'_>,
) -> Result<Value<VoteValue>, ReadRefusal>
    requires { IsInside item.now }
    ensures { Gives (faults.at_place (tables.value_at kind (seen_item item.now))) result }
{
    match kind {
        VoteKind::Version => {
            at(literal(b"3", item))?;
            Ok(Value::Nothing)
        }
        VoteKind::Status => {
            at(literal(b"vote", item))?;
            Ok(Value::Nothing)
        }
        VoteKind::Methods => Ok(Value::Text(at(numbers_of(item))?)),
        VoteKind::Time => Ok(Value::Number(at(time_of(item))?)),
        VoteKind::Delays => delays_value(item),
        VoteKind::KnownFlags => Ok(Value::Text(flags_of(listed.keys.alloc(), item)?)),
        VoteKind::Versions => Ok(Value::Text(at(versions_of(item))?)),
        VoteKind::Protocols => Ok(Value::Text(at(protocols_of(item))?)),
        VoteKind::Params => Ok(Value::Text(params_of(listed.keys.alloc(), item)?)),
        VoteKind::Rest => Ok(Value::Text(rest_of(item))),
        VoteKind::Source => source_value(item),
        VoteKind::Random(line) => Ok(Value::Own(VoteValue::Random(line, random_of(item)))),
        VoteKind::Nothing => Ok(Value::Nothing),
        VoteKind::Signature => signature_value(item),
        VoteKind::Certificate(kind) => certificate_value(kind, item),
        VoteKind::Entry(kind) => lifted_value(listed, kind, item),
    }
}

/// The fault of an item that has too many arguments for its kind, or that begins one entry too many.
pub(crate) fn over_limit(listed: &Listed, kind: VoteKind, item: &Item<'_>) -> Result<(), FrameFault>
    requires { IsInside item.now }
    ensures { result ≡ tables.over_limit listed.now kind (seen_item item.now) }
{
    match kind {
        VoteKind::Methods => too_many(Limit::Methods, item),
        VoteKind::KnownFlags => too_many(Limit::KnownFlags, item),
        VoteKind::Params => too_many(Limit::Params, item),
        VoteKind::Entry(kind) => too_many_entries(listed, kind, item),
        _ => Ok(()),
    }
}

/// Remembers what an item says that begins at a place.
pub(crate) fn note_value(
    across: &mut Across,
    place: u64,
    value: Value<VoteValue>,
) -> Result<(), ReadRefusal>
    ensures { Becomes (tables.note_value across.old place value) across.new result }
{
    match value {
        Value::Own(VoteValue::Entry(said)) => note_entry(&mut across.listed, place, said),
        Value::Own(VoteValue::Random(line, read)) => note_random(across, place, line, read),
        _ => Ok(()),
    }
}
