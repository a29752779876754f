// What is kept of a station input's sections: numbers, and where its texts stand.
ghost use Rattle.std.specs.Prelude.{◌≡◌};
ghost use Rattle.station_input.specs.Heads as heads;

use crate::frame_said::{ScheduleLine, StationValue};
use crate::said::{no_schedule, no_source, schedule_at, source_at};
use authority_certs::{CertHead, head_of, no_head};
use frame_terms::{Keyword, Taken};
use frame_values::{DirSource, Span, Value, text_if};
use vote_terms::{ListSpans, lists_at, no_lists};

/// What the items of a station input say that stand once, and where their texts stand in its bytes.
#[derive(Clone, Copy)]
pub(crate) struct Head {
    /// The own authority.
    pub source: DirSource,
    /// The own authority's contact.
    pub contact: Option<Span>,
    /// When it votes.
    pub schedule: ScheduleLine,
    /// The lists of versions, protocols and params.
    pub lists: ListSpans,
    /// The own authority's certificate.
    pub certificate: CertHead,
}

/// What is kept where nothing was read.
pub(crate) fn empty_head() -> Head
    ensures { result ≡ heads.no_head }
{
    Head {
        source: no_source(),
        contact: None,
        schedule: no_schedule(),
        lists: no_lists(),
        certificate: no_head(),
    }
}

/// What is kept after the certificate.
pub(crate) fn with_certificate(head: Head, taken: &[Taken<Value<StationValue>>]) -> Head
    ensures { result ≡ heads.with_certificate head taken.now }
{
    Head {
        certificate: head_of(taken),
        ..head
    }
}

/// What is kept after all the rest.
pub(crate) fn with_station(head: Head, taken: &[Taken<Value<StationValue>>]) -> Head
    ensures { result ≡ heads.with_station head taken.now }
{
    Head {
        source: source_at(taken),
        contact: text_if(taken, Keyword::Contact),
        schedule: schedule_at(taken),
        lists: lists_at(taken),
        ..head
    }
}
