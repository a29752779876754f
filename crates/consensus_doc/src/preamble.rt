// What the preamble of a consensus says.
ghost use Rattle.std.specs.Prelude.{◌≡◌, ◌<◌, ◌^◌, IfOk, length};
ghost use Rattle.frame_values.specs.Parts as parts;
ghost use Rattle.frame_values.specs.Values as values;
ghost use Rattle.consensus_doc.specs.Drafts as drafts;

use crate::says::{delays_at, random_at};
use consensus_frame::ConsensusValue;
use consensus_terms::{ConsensusFacts, ConsensusLists};
use dir_bytes::{Memory, Seq};
use dir_values::FlagSet;
use frame_terms::{Keyword, Taken};
use frame_values::{Value, moment, number_at, part, text_at};
use list_values::{Params, ProtoRanges, VersionList};
use std::alloc::Global;
use value_groups::{params_in, protocols_in, versions_in};

/// The set of the words of an item's text.
///
/// # Errors
/// `Memory` is want of memory.
pub(crate) fn flags_at(
    alloc: Global,
    bytes: &[u8],
    taken: &[Taken<Value<ConsensusValue>>],
    keyword: Keyword,
) -> Result<FlagSet, Memory>
    requires { length bytes.now < 2 ^ 62 }
    ensures { IfOk result (λ set. set ≡ drafts.flags_in bytes.now taken.now keyword) }
{
    let mut set = FlagSet::new(alloc);
    set.insert_words(alloc, part(bytes, text_at(taken, keyword)))?;
    Ok(set)
}

/// The versions of an item's text.
fn versions_at(
    alloc: Global,
    bytes: &[u8],
    taken: &[Taken<Value<ConsensusValue>>],
    keyword: Keyword,
) -> Result<VersionList, Memory>
    ensures { IfOk result (λ versions. versions ≡ drafts.versions_at bytes.now taken.now keyword) }
{
    versions_in(alloc, part(bytes, text_at(taken, keyword)))
}

/// The protocols of an item's text.
fn protocols_at(
    alloc: Global,
    bytes: &[u8],
    taken: &[Taken<Value<ConsensusValue>>],
    keyword: Keyword,
) -> Result<ProtoRanges, Memory>
    ensures { IfOk result (λ protocols. protocols ≡ drafts.protocols_at bytes.now taken.now keyword) }
{
    protocols_in(alloc, part(bytes, text_at(taken, keyword)))
}

/// The params of an item's text.
fn params_at(
    alloc: Global,
    bytes: &[u8],
    taken: &[Taken<Value<ConsensusValue>>],
    keyword: Keyword,
) -> Result<Params, Memory>
    ensures { IfOk result (λ params. params ≡ drafts.params_at bytes.now taken.now keyword) }
{
    params_in(alloc, part(bytes, text_at(taken, keyword)))
}

/// The lists of a preamble.
fn lists_of(
    alloc: Global,
    bytes: &[u8],
    taken: &[Taken<Value<ConsensusValue>>],
) -> Result<ConsensusLists, Memory>
    ensures { IfOk result (λ lists. lists ≡ drafts.lists_of bytes.now taken.now) }
{
    Ok(ConsensusLists {
        client_versions: versions_at(alloc, bytes, taken, Keyword::ClientVersions)?,
        server_versions: versions_at(alloc, bytes, taken, Keyword::ServerVersions)?,
        recommended_client_protocols: protocols_at(
            alloc,
            bytes,
            taken,
            Keyword::RecommendedClientProtocols,
        )?,
        recommended_relay_protocols: protocols_at(
            alloc,
            bytes,
            taken,
            Keyword::RecommendedRelayProtocols,
        )?,
        required_client_protocols: protocols_at(
            alloc,
            bytes,
            taken,
            Keyword::RequiredClientProtocols,
        )?,
        required_relay_protocols: protocols_at(
            alloc,
            bytes,
            taken,
            Keyword::RequiredRelayProtocols,
        )?,
        params: params_at(alloc, bytes, taken, Keyword::Params)?,
    })
}

/// A consensus method. Each that is read is below 2 ^ 32, so that nothing is cut off.
fn method(number: u64) -> u32
    ensures { result ≡ drafts.method_of number }
{
    number.min(4_294_967_295) as u32
}

/// What a preamble says.
///
/// # Errors
/// `Memory` is want of memory.
pub(crate) fn preamble_facts(
    alloc: Global,
    bytes: &[u8],
    taken: &[Taken<Value<ConsensusValue>>],
) -> Result<ConsensusFacts, Memory>
    requires { length bytes.now < 2 ^ 62 }
    ensures { IfOk result (λ facts. facts ≡ drafts.preamble_facts bytes.now taken.now) }
{
    let (vote_seconds, dist_seconds) = delays_at(taken);
    Ok(ConsensusFacts {
        method: method(number_at(taken, Keyword::ConsensusMethod)),
        valid_after: moment(number_at(taken, Keyword::ValidAfter)),
        fresh_until: moment(number_at(taken, Keyword::FreshUntil)),
        valid_until: moment(number_at(taken, Keyword::ValidUntil)),
        vote_seconds,
        dist_seconds,
        known_flags: flags_at(alloc, bytes, taken, Keyword::KnownFlags)?,
        lists: lists_of(alloc, bytes, taken)?,
        random_previous: random_at(taken, Keyword::SharedRandPreviousValue),
        random_current: random_at(taken, Keyword::SharedRandCurrentValue),
        sources: Seq::new(Vec::new(alloc)),
        routers: Seq::new(Vec::new(alloc)),
    })
}

/// Empty lists.
fn no_lists(alloc: Global) -> ConsensusLists
    ensures { result ≡ drafts.no_lists }
{
    ConsensusLists {
        client_versions: VersionList::new(Vec::new(alloc)),
        server_versions: VersionList::new(Vec::new(alloc)),
        recommended_client_protocols: ProtoRanges::new(Vec::new(alloc)),
        recommended_relay_protocols: ProtoRanges::new(Vec::new(alloc)),
        required_client_protocols: ProtoRanges::new(Vec::new(alloc)),
        required_relay_protocols: ProtoRanges::new(Vec::new(alloc)),
        params: Params::new(Vec::new(alloc)),
    }
}

/// What is kept where nothing was read.
pub(crate) fn no_facts(alloc: Global) -> ConsensusFacts
    ensures { result ≡ drafts.no_facts }
{
    ConsensusFacts {
        method: 0,
        valid_after: 0,
        fresh_until: 0,
        valid_until: 0,
        vote_seconds: 0,
        dist_seconds: 0,
        known_flags: FlagSet::new(alloc),
        lists: no_lists(alloc),
        random_previous: None,
        random_current: None,
        sources: Seq::new(Vec::new(alloc)),
        routers: Seq::new(Vec::new(alloc)),
    }
}
