// Writing what a vote says in lists of values. Of a list that the vote has not there is no item; an empty one is its keyword.
ghost use Rattle.std.specs.Prelude.{◌≡◌, ◌++◌, OnOk, OnErr, take, vec_len, option_map};
ghost use Rattle.dirdoc_grammar.specs.Writing.{items_text};
ghost use Rattle.frame_values.specs.Items as items;
ghost use Rattle.list_values.specs.{Protocols.protocols_text, VersionLists.versions_text};
ghost use Rattle.vote_text.specs.Lists as texts;

use dir_bytes::Memory;
use frame_terms::Keyword;
use frame_values::push_bare;
use list_values::{Params, ProtoRanges, VersionList};
use std::alloc::Global;
use vote_terms::VoteLists;

/// The item of some versions of Tor, where they are listed.
fn push_versions_if(
    out: &mut Vec<u8>,
    alloc: Global,
    keyword: Keyword,
    versions: &Option<VersionList>,
) -> Result<(), Memory>
    ensures ok { OnOk result (out.new.items ≡ out.old.items ++ items_text (items.item_if keyword (option_map versions_text versions.now))) }
    ensures err { OnErr result (take (vec_len out.old) out.new.items ≡ out.old.items) }
{
    let Some(list) = versions else {
        return Ok(());
    };
    let mut rest = Vec::new(alloc);
    list.push(&mut rest)?;
    push_bare(out, keyword, &rest)
}

/// The item of some versions of protocols, where they are listed.
fn push_protocols_if(
    out: &mut Vec<u8>,
    alloc: Global,
    keyword: Keyword,
    protocols: &Option<ProtoRanges>,
) -> Result<(), Memory>
    ensures ok { OnOk result (out.new.items ≡ out.old.items ++ items_text (items.item_if keyword (option_map protocols_text protocols.now))) }
    ensures err { OnErr result (take (vec_len out.old) out.new.items ≡ out.old.items) }
{
    let Some(list) = protocols else {
        return Ok(());
    };
    let mut rest = Vec::new(alloc);
    list.push(&mut rest)?;
    push_bare(out, keyword, &rest)
}

/// The item of the params, where they are listed.
pub(crate) fn push_params(
    out: &mut Vec<u8>,
    alloc: Global,
    params: &Option<Params>,
) -> Result<(), Memory>
    ensures ok { OnOk result (out.new.items ≡ out.old.items ++ items_text (texts.param_items params.now)) }
    ensures err { OnErr result (take (vec_len out.old) out.new.items ≡ out.old.items) }
{
    let Some(list) = params else {
        return Ok(());
    };
    let mut rest = Vec::new(alloc);
    list.push(&mut rest)?;
    push_bare(out, Keyword::Params, &rest)
}

/// The items of the versions of Tor.
pub(crate) fn push_versions(
    out: &mut Vec<u8>,
    alloc: Global,
    lists: &VoteLists,
) -> Result<(), Memory>
    ensures ok { OnOk result (out.new.items ≡ out.old.items ++ items_text (texts.version_items lists.now)) }
    ensures err { OnErr result (take (vec_len out.old) out.new.items ≡ out.old.items) }
{
    push_versions_if(out, alloc, Keyword::ClientVersions, &lists.client_versions)?;
    push_versions_if(out, alloc, Keyword::ServerVersions, &lists.server_versions)
}

/// The items of the protocols that are recommended.
fn push_recommended(out: &mut Vec<u8>, alloc: Global, lists: &VoteLists) -> Result<(), Memory>
    ensures ok { OnOk result (out.new.items ≡ out.old.items ++ items_text (texts.recommended_items lists.now)) }
    ensures err { OnErr result (take (vec_len out.old) out.new.items ≡ out.old.items) }
{
    let (clients, relays) = (
        &lists.recommended_client_protocols,
        &lists.recommended_relay_protocols,
    );
    push_protocols_if(out, alloc, Keyword::RecommendedClientProtocols, clients)?;
    push_protocols_if(out, alloc, Keyword::RecommendedRelayProtocols, relays)
}

/// The items of those that are required.
fn push_required(out: &mut Vec<u8>, alloc: Global, lists: &VoteLists) -> Result<(), Memory>
    ensures ok { OnOk result (out.new.items ≡ out.old.items ++ items_text (texts.required_items lists.now)) }
    ensures err { OnErr result (take (vec_len out.old) out.new.items ≡ out.old.items) }
{
    let (clients, relays) = (
        &lists.required_client_protocols,
        &lists.required_relay_protocols,
    );
    push_protocols_if(out, alloc, Keyword::RequiredClientProtocols, clients)?;
    push_protocols_if(out, alloc, Keyword::RequiredRelayProtocols, relays)
}

/// The items of the protocols.
pub(crate) fn push_protocols(
    out: &mut Vec<u8>,
    alloc: Global,
    lists: &VoteLists,
) -> Result<(), Memory>
    ensures ok { OnOk result (out.new.items ≡ out.old.items ++ items_text (texts.protocol_items lists.now)) }
    ensures err { OnErr result (take (vec_len out.old) out.new.items ≡ out.old.items) }
{
    push_recommended(out, alloc, lists)?;
    push_required(out, alloc, lists)
}
