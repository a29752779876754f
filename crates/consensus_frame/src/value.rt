// What the items of a consensus say, and what is remembered of them.
ghost use Rattle.std.specs.Prelude.{◌≡◌};
ghost use Rattle.dirdoc_grammar.specs.Seen.{seen_item, IsInside};
ghost use Rattle.frame_terms.specs.Refusals.{Becomes};
ghost use Rattle.frame_reader.specs.Giving as giving;
ghost use Rattle.frame_reader.specs.Giving.{Gives};
ghost use Rattle.frame_values.specs.Faults as faults;
ghost use Rattle.relay_entries.specs.Lines as entries;
ghost use Rattle.consensus_frame.specs.Tables as tables;

use crate::across::Across;
use crate::line::{bandwidth_of, method_of, micro_digest_of, relay_of, version_of, vote_digest_of};
use crate::rows::ConsensusKind;
use consensus_terms::{Bandwidth, Flavour};
use dir_values::{Digest1, Digest2};
use dirdoc_grammar::Item;
use frame_reader::given;
use frame_terms::ReadRefusal;
use frame_values::{
    DirSource, Value, VoteSignature, at_place, delays_of, known_signature_of, literal, rest_of,
    source_of, space_of, time_of,
};
use relay_entries::{EntryValue, entry_value, flags_of, note_entry};
use value_groups::{SharedRandom, params_of, protocols_of, random_of, versions_of};

/// What only items of a consensus say.
#[derive(Clone, Copy, Debug)]
pub enum ConsensusValue {
    /// Two numbers of seconds.
    Delays(u32, u32),
    /// Who an authority is.
    Source(DirSource),
    /// A shared random value.
    Random(SharedRandom),
    /// The digest of a vote.
    VoteDigest(Digest1),
    /// The bandwidth of a relay.
    Bandwidth(Bandwidth),
    /// The digest of a microdescriptor.
    MicroDigest(Digest2),
    /// A signature, and nothing where its algorithm is not known.
    Signature(Option<VoteSignature>),
    /// What an item of an entry says.
    Entry(EntryValue),
}

/// What an item of an entry says, as a consensus does.
fn lifted(said: Value<EntryValue>) -> Value<ConsensusValue>
    ensures { result ≡ entries.lifted_entry_value ConsensusValue.Entry said }
{
    match said {
        Value::Nothing => Value::Nothing,
        Value::Text(span) => Value::Text(span),
        Value::Number(number) => Value::Number(number),
        Value::Fingerprint(identity) => Value::Fingerprint(identity),
        Value::Object(lines) => Value::Object(lines),
        Value::Own(said) => Value::Own(ConsensusValue::Entry(said)),
    }
}

/// A value, or the refusal at the place of what is wrong.
fn at<V>(value: Result<V, u64>) -> Result<V, ReadRefusal>
    ensures { result ≡ giving.given_result (faults.at_place value) }
{
    given(at_place(value))
}

/// What a signature says: behind the first one's keyword a space has to stand, where the signed part ends.
fn signature_of(is_signed: bool, item: &Item<'_>) -> Result<Option<VoteSignature>, u64>
    requires { IsInside item.now }
    ensures { result ≡ tables.signature_of is_signed (seen_item item.now) }
{
    if !is_signed {
        space_of(item)?;
    }
    known_signature_of(item)
}

/// What an item of a relay says, or the place of what is wrong.
fn router_value(
    flavour: Flavour,
    kind: ConsensusKind,
    item: &Item<'_>,
) -> Result<Value<ConsensusValue>, u64>
    requires { IsInside item.now }
    ensures { result ≡ tables.router_value flavour kind (seen_item item.now) }
{
    match kind {
        ConsensusKind::Relay => {
            let relay = relay_of(flavour, item)?;
            Ok(Value::Own(ConsensusValue::Entry(EntryValue::Relay(relay))))
        }
        ConsensusKind::Bandwidth => {
            let bandwidth = bandwidth_of(item)?;
            Ok(Value::Own(ConsensusValue::Bandwidth(bandwidth)))
        }
        ConsensusKind::MicroDigest => {
            let digest = micro_digest_of(item)?;
            Ok(Value::Own(ConsensusValue::MicroDigest(digest)))
        }
        _ => Ok(Value::Nothing),
    }
}

/// What an item says, or the place of what is wrong.
pub(crate) fn value_at(
    flavour: Flavour,
    across: &Across,
    kind: ConsensusKind,
    item: &Item<'_>,
) -> Result<Value<ConsensusValue>, ReadRefusal>
    requires { IsInside item.now }
    ensures { Gives (faults.at_place (tables.value_at flavour across.now kind (seen_item item.now))) result }
{
    match kind {
        ConsensusKind::Version => {
            at(version_of(flavour, item))?;
            Ok(Value::Nothing)
        }
        ConsensusKind::Status => {
            at(literal(b"consensus", item))?;
            Ok(Value::Nothing)
        }
        ConsensusKind::Method => Ok(Value::Number(at(method_of(item))?)),
        ConsensusKind::Time => Ok(Value::Number(at(time_of(item))?)),
        ConsensusKind::Delays => {
            let (vote, distribution) = at(delays_of(item))?;
            Ok(Value::Own(ConsensusValue::Delays(vote, distribution)))
        }
        ConsensusKind::Versions => Ok(Value::Text(at(versions_of(item))?)),
        ConsensusKind::KnownFlags => {
            Ok(Value::Text(flags_of(across.listed.keys.alloc(), item)?))
        }
        ConsensusKind::Protocols => Ok(Value::Text(at(protocols_of(item))?)),
        ConsensusKind::Params => Ok(Value::Text(params_of(across.listed.keys.alloc(), item)?)),
        ConsensusKind::Random => Ok(Value::Own(ConsensusValue::Random(at(random_of(item))?))),
        ConsensusKind::Source => Ok(Value::Own(ConsensusValue::Source(at(source_of(item))?))),
        ConsensusKind::Rest => Ok(Value::Text(rest_of(item))),
        ConsensusKind::VoteDigest => {
            Ok(Value::Own(ConsensusValue::VoteDigest(at(vote_digest_of(item))?)))
        }
        ConsensusKind::Nothing => Ok(Value::Nothing),
        ConsensusKind::Signature => {
            let signature = at(signature_of(across.is_signed, item))?;
            Ok(Value::Own(ConsensusValue::Signature(signature)))
        }
        ConsensusKind::Entry(kind) => Ok(lifted(entry_value(&across.listed, kind, item)?)),
        _ => at(router_value(flavour, kind, item)),
    }
}

/// Remembers what an item says that begins at a place.
pub(crate) fn note_value(
    across: &mut Across,
    place: u64,
    value: Value<ConsensusValue>,
) -> Result<(), ReadRefusal>
    ensures { Becomes (tables.note_value across.old place value) across.new result }
{
    match value {
        Value::Own(ConsensusValue::Entry(said)) => note_entry(&mut across.listed, place, said),
        Value::Own(ConsensusValue::Signature(_)) => {
            across.is_signed = true;
            Ok(())
        }
        _ => Ok(()),
    }
}
