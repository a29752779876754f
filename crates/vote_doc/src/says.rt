// What items of a vote alone say, in its sections.
ghost use Rattle.std.specs.Prelude.{◌≡◌};
ghost use Rattle.frame_values.specs.Values.{item_at};
ghost use Rattle.vote_doc.specs.Saying as saying;

use dir_values::{Digest1, Fingerprint};
use frame_terms::{Keyword, Taken};
use frame_values::{DirSource, Value, VoteSignature, nowhere, own_at};
use value_groups::SharedRandom;
use vote_frame::VoteValue;

/// The seconds for exchanging votes and signatures.
pub fn delays_at(taken: &[Taken<Value<VoteValue>>]) -> (u32, u32)
    ensures { result ≡ saying.delays_in (item_at taken.now Keyword.VotingDelay) }
{
    match own_at(taken, Keyword::VotingDelay) {
        Some(VoteValue::Delays(vote, dist)) => (vote, dist),
        _ => (0, 0),
    }
}

/// An authority of which nothing is known.
pub fn no_source() -> DirSource
    ensures { result ≡ saying.no_source }
{
    DirSource {
        nickname: nowhere(),
        identity: Fingerprint([0; 20]),
        address: nowhere(),
        ip: 0,
        dir_port: 0,
        or_port: 0,
    }
}

/// The authority.
pub fn source_at(taken: &[Taken<Value<VoteValue>>]) -> DirSource
    ensures { result ≡ saying.source_in (item_at taken.now Keyword.DirSource) }
{
    match own_at(taken, Keyword::DirSource) {
        Some(VoteValue::Source(source)) => source,
        _ => no_source(),
    }
}

/// The shared random value of an item.
pub fn random_at(taken: &[Taken<Value<VoteValue>>], keyword: Keyword) -> Option<SharedRandom>
    ensures { result ≡ saying.random_in (item_at taken.now keyword) }
{
    match own_at(taken, keyword) {
        Some(VoteValue::Random(_, Ok(random))) => Some(random),
        _ => None,
    }
}

/// A signature of nothing.
pub fn no_signature() -> VoteSignature
    ensures { result ≡ saying.no_signature }
{
    VoteSignature {
        algorithm: None,
        identity: Fingerprint([0; 20]),
        key_digest: Digest1([0; 20]),
        signature: nowhere(),
    }
}

/// The signature.
pub fn signature_at(taken: &[Taken<Value<VoteValue>>]) -> VoteSignature
    ensures { result ≡ saying.signature_in (item_at taken.now Keyword.DirectorySignature) }
{
    match own_at(taken, Keyword::DirectorySignature) {
        Some(VoteValue::Signature(signature)) => signature,
        _ => no_signature(),
    }
}
