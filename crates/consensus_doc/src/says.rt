// What items of a consensus alone say, in its sections. Where an item is not there, its value is nothing.
ghost use Rattle.std.specs.Prelude.{◌≡◌};
ghost use Rattle.frame_values.specs.Values.{item_at};
ghost use Rattle.consensus_doc.specs.Saying as saying;

use consensus_frame::ConsensusValue;
use consensus_terms::Bandwidth;
use dir_values::{Digest1, Digest2, Fingerprint};
use frame_terms::{Keyword, Taken};
use frame_values::{DirSource, Value, nowhere, own_at};
use relay_entries::{EntryValue, RelayLine};
use value_groups::SharedRandom;

/// The seconds for exchanging votes and signatures.
pub(crate) fn delays_at(taken: &[Taken<Value<ConsensusValue>>]) -> (u32, u32)
    ensures { result ≡ saying.delays_in (item_at taken.now Keyword.VotingDelay) }
{
    match own_at(taken, Keyword::VotingDelay) {
        Some(ConsensusValue::Delays(vote, dist)) => (vote, dist),
        _ => (0, 0),
    }
}

/// The shared random value of an item.
pub(crate) fn random_at(
    taken: &[Taken<Value<ConsensusValue>>],
    keyword: Keyword,
) -> Option<SharedRandom>
    ensures { result ≡ saying.random_in (item_at taken.now keyword) }
{
    match own_at(taken, keyword) {
        Some(ConsensusValue::Random(random)) => Some(random),
        _ => None,
    }
}

/// An authority of which nothing is known.
fn no_source() -> DirSource
    ensures { result ≡ saying.no_source }
{
    DirSource {
        nickname: nowhere(),
        identity: Fingerprint([0; 20]),
        address: nowhere(),
        ip: 0,
        dir_port: 0,
        or_port: 0,
    }
}

/// The authority.
pub(crate) fn source_at(taken: &[Taken<Value<ConsensusValue>>]) -> DirSource
    ensures { result ≡ saying.source_in (item_at taken.now Keyword.DirSource) }
{
    match own_at(taken, Keyword::DirSource) {
        Some(ConsensusValue::Source(source)) => source,
        _ => no_source(),
    }
}

/// The digest of its vote.
pub(crate) fn vote_digest_at(taken: &[Taken<Value<ConsensusValue>>]) -> Digest1
    ensures { result ≡ saying.vote_digest_in (item_at taken.now Keyword.VoteDigest) }
{
    match own_at(taken, Keyword::VoteDigest) {
        Some(ConsensusValue::VoteDigest(digest)) => digest,
        _ => Digest1([0; 20]),
    }
}

/// A relay of which nothing is known.
fn no_relay() -> RelayLine
    ensures { result ≡ saying.no_relay }
{
    RelayLine {
        nickname: nowhere(),
        identity: Fingerprint([0; 20]),
        digest: Digest1([0; 20]),
        published: 0,
        ip: 0,
        or_port: 0,
        dir_port: 0,
    }
}

/// The relay.
pub(crate) fn relay_at(taken: &[Taken<Value<ConsensusValue>>]) -> RelayLine
    ensures { result ≡ saying.relay_in (item_at taken.now Keyword.R) }
{
    match own_at(taken, Keyword::R) {
        Some(ConsensusValue::Entry(EntryValue::Relay(relay))) => relay,
        _ => no_relay(),
    }
}

/// Its bandwidth, where it is said.
pub(crate) fn bandwidth_at(taken: &[Taken<Value<ConsensusValue>>]) -> Option<Bandwidth>
    ensures { result ≡ saying.bandwidth_in (item_at taken.now Keyword.W) }
{
    match own_at(taken, Keyword::W) {
        Some(ConsensusValue::Bandwidth(bandwidth)) => Some(bandwidth),
        _ => None,
    }
}

/// The digest of its microdescriptor, in the microdesc flavour.
pub(crate) fn micro_digest_at(taken: &[Taken<Value<ConsensusValue>>]) -> Option<Digest2>
    ensures { result ≡ saying.micro_digest_in (item_at taken.now Keyword.M) }
{
    match own_at(taken, Keyword::M) {
        Some(ConsensusValue::MicroDigest(digest)) => Some(digest),
        _ => None,
    }
}
