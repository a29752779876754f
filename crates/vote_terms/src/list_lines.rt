// What lines say that are lists of values, in a vote's preamble and in what a vote is made of.
ghost use Rattle.std.specs.Prelude.{◌≡◌, IfOk};
ghost use Rattle.vote_terms.specs.ListLines as terms;

use crate::lists::VoteLists;
use dir_bytes::Memory;
use frame_terms::{Keyword, Taken};
use frame_values::{Span, Value, text_if};
use std::alloc::Global;
use value_groups::{params_if, protocols_if, versions_if};

/// Where lists of values stand in the bytes of a document, of those that it has.
#[derive(Clone, Copy, Debug)]
pub struct ListSpans {
    /// The versions that are recommended to clients.
    pub client_versions: Option<Span>,
    /// The versions that are recommended to relays.
    pub server_versions: Option<Span>,
    /// The versions of protocols that are recommended to clients.
    pub recommended_client_protocols: Option<Span>,
    /// Those that are recommended to relays.
    pub recommended_relay_protocols: Option<Span>,
    /// Those that are required of clients.
    pub required_client_protocols: Option<Span>,
    /// Those that are required of relays.
    pub required_relay_protocols: Option<Span>,
    /// The params.
    pub params: Option<Span>,
}

/// The lists of a document that has none.
pub fn no_lists() -> ListSpans
    ensures { result ≡ terms.no_lists }
{
    ListSpans {
        client_versions: None,
        server_versions: None,
        recommended_client_protocols: None,
        recommended_relay_protocols: None,
        required_client_protocols: None,
        required_relay_protocols: None,
        params: None,
    }
}

/// Where the lists stand that were taken of a document.
pub fn lists_at<V: Copy>(taken: &[Taken<Value<V>>]) -> ListSpans
    ensures { result ≡ terms.lists_in taken.now }
{
    ListSpans {
        client_versions: text_if(taken, Keyword::ClientVersions),
        server_versions: text_if(taken, Keyword::ServerVersions),
        recommended_client_protocols: text_if(taken, Keyword::RecommendedClientProtocols),
        recommended_relay_protocols: text_if(taken, Keyword::RecommendedRelayProtocols),
        required_client_protocols: text_if(taken, Keyword::RequiredClientProtocols),
        required_relay_protocols: text_if(taken, Keyword::RequiredRelayProtocols),
        params: text_if(taken, Keyword::Params),
    }
}

/// The lists that stand there, as values.
///
/// # Errors
/// `Memory` is want of memory.
pub fn vote_lists(alloc: Global, bytes: &[u8], spans: &ListSpans) -> Result<VoteLists, Memory>
    ensures { IfOk result (λ lists. lists ≡ terms.vote_lists bytes.now spans.now) }
{
    Ok(VoteLists {
        client_versions: versions_if(alloc, bytes, spans.client_versions)?,
        server_versions: versions_if(alloc, bytes, spans.server_versions)?,
        recommended_client_protocols: protocols_if(
            alloc,
            bytes,
            spans.recommended_client_protocols,
        )?,
        recommended_relay_protocols: protocols_if(alloc, bytes, spans.recommended_relay_protocols)?,
        required_client_protocols: protocols_if(alloc, bytes, spans.required_client_protocols)?,
        required_relay_protocols: protocols_if(alloc, bytes, spans.required_relay_protocols)?,
        params: params_if(alloc, bytes, spans.params)?,
    })
}
