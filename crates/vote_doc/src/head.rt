// What is kept of a vote's sections: numbers, and where its texts stand.
ghost use Rattle.std.specs.Prelude.{◌≡◌};
ghost use Rattle.frame_values.specs.Values as values;
ghost use Rattle.vote_doc.specs.Heads as heads;

use crate::says::{delays_at, no_signature, no_source, random_at, signature_at, source_at};
use authority_certs::{CertHead, head_of, no_head};
use frame_terms::{Keyword, Taken};
use frame_values::{
    DirSource, Span, Value, VoteSignature, after_at, item_at, nowhere, number_at, place_at,
    text_at, text_if,
};
use value_groups::SharedRandom;
use vote_frame::{VoteSection, VoteValue};
use vote_terms::{ListSpans, lists_at, no_lists};

/// What a vote's items say, and where its texts stand in its bytes. Moments are seconds since 1970-01-01 00:00:00 UTC.
#[derive(Clone, Copy, Debug)]
pub(crate) struct Head {
    /// The place of the first item.
    pub begin: u64,
    /// The consensus methods.
    pub methods: Option<Span>,
    /// When the vote was published.
    pub published: u64,
    /// When the period begins that the vote is for.
    pub valid_after: u64,
    /// Until when the consensus is to be fresh.
    pub fresh_until: u64,
    /// Until when the consensus is to be valid.
    pub valid_until: u64,
    /// The seconds for exchanging votes.
    pub vote_seconds: u32,
    /// The seconds for exchanging signatures.
    pub dist_seconds: u32,
    /// The flags that the vote knows.
    pub known_flags: Span,
    /// The thresholds of its flags.
    pub flag_thresholds: Option<Span>,
    /// The lists of versions, protocols and params.
    pub lists: ListSpans,
    /// Its authority.
    pub source: DirSource,
    /// The authority's contact.
    pub contact: Option<Span>,
    /// The previous shared random value.
    pub random_previous: Option<SharedRandom>,
    /// The current shared random value.
    pub random_current: Option<SharedRandom>,
    /// The authority's certificate.
    pub certificate: CertHead,
    /// The signature.
    pub signature: VoteSignature,
    /// The place after the one space that follows `directory-signature`.
    pub signed_end: u64,
    /// The place after the last object.
    pub end: u64,
}

/// What is kept where nothing was read.
pub(crate) fn empty_head() -> Head
    ensures { result ≡ heads.no_head }
{
    Head {
        begin: 0,
        methods: None,
        published: 0,
        valid_after: 0,
        fresh_until: 0,
        valid_until: 0,
        vote_seconds: 0,
        dist_seconds: 0,
        known_flags: nowhere(),
        flag_thresholds: None,
        lists: no_lists(),
        source: no_source(),
        contact: None,
        random_previous: None,
        random_current: None,
        certificate: no_head(),
        signature: no_signature(),
        signed_end: 0,
        end: 0,
    }
}

/// What is kept after a preamble.
fn with_preamble(head: Head, taken: &[Taken<Value<VoteValue>>]) -> Head
    ensures { result ≡ heads.with_preamble head taken.now }
{
    let (vote_seconds, dist_seconds) = delays_at(taken);
    Head {
        begin: place_at(taken, Keyword::NetworkStatusVersion),
        methods: text_if(taken, Keyword::ConsensusMethods),
        published: number_at(taken, Keyword::Published),
        valid_after: number_at(taken, Keyword::ValidAfter),
        fresh_until: number_at(taken, Keyword::FreshUntil),
        valid_until: number_at(taken, Keyword::ValidUntil),
        vote_seconds,
        dist_seconds,
        known_flags: text_at(taken, Keyword::KnownFlags),
        flag_thresholds: text_if(taken, Keyword::FlagThresholds),
        lists: lists_at(taken),
        random_previous: random_at(taken, Keyword::SharedRandPreviousValue),
        random_current: random_at(taken, Keyword::SharedRandCurrentValue),
        ..head
    }
}

/// What is kept after the section of the authority. A shared random value stands there or in the preamble.
fn with_authority(head: Head, taken: &[Taken<Value<VoteValue>>]) -> Head
    ensures { result ≡ heads.with_authority head taken.now }
{
    Head {
        source: source_at(taken),
        contact: text_if(taken, Keyword::Contact),
        random_previous: head
            .random_previous
            .or(random_at(taken, Keyword::SharedRandPreviousValue)),
        random_current: head
            .random_current
            .or(random_at(taken, Keyword::SharedRandCurrentValue)),
        ..head
    }
}

/// What is kept after a certificate.
fn with_certificate(head: Head, taken: &[Taken<Value<VoteValue>>]) -> Head
    ensures { result ≡ heads.with_certificate head taken.now }
{
    Head {
        certificate: head_of(taken),
        ..head
    }
}

/// The place after the part that is signed.
fn signed_to(taken: &[Taken<Value<VoteValue>>]) -> u64
    ensures { result ≡ heads.signed_to (values.item_at taken.now Keyword.DirectorySignature) }
{
    match item_at(taken, Keyword::DirectorySignature) {
        Some(one) => one.separator.saturating_add(1),
        None => 0,
    }
}

/// What is kept after a footer.
fn with_footer(head: Head, taken: &[Taken<Value<VoteValue>>]) -> Head
    ensures { result ≡ heads.with_footer head taken.now }
{
    Head {
        signature: signature_at(taken),
        signed_end: signed_to(taken),
        end: after_at(taken, Keyword::DirectorySignature),
        ..head
    }
}

/// What is kept after one more section.
pub(crate) fn with_section(
    head: Head,
    section: VoteSection,
    taken: &[Taken<Value<VoteValue>>],
) -> Head
    ensures { result ≡ heads.head_with head section taken.now }
{
    match section {
        VoteSection::Preamble => with_preamble(head, taken),
        VoteSection::Authority => with_authority(head, taken),
        VoteSection::Certificate => with_certificate(head, taken),
        VoteSection::Entry => head,
        VoteSection::Footer => with_footer(head, taken),
    }
}
