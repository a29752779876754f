// The frame of a station input: its sections, and the tables of their items.
ghost use Rattle.std.specs.Prelude.{◌≡◌};
ghost use Rattle.station_input.specs.Tables as tables;

use crate::across::{Across, note_value, nothing_across};
use crate::frame_said::StationValue;
use crate::stranger::is_of_vote;
use crate::value::{over_limit, value_at};
use authority_certs::{CertKind, cert_rows, cert_shape};
use dirdoc_grammar::Item;
use frame_reader::{Frame, given};
use frame_terms::{Again, Count, Keyword, ReadRefusal, Row, Shape, Taken};
use frame_values::Value;
use std::alloc::Global;

/// What a station is given, as a kind of document.
#[derive(Clone, Copy)]
pub struct StationFrame;

/// A section of a station input.
#[derive(Clone, Copy)]
pub enum StationSection {
    /// All of it but the certificate.
    Station,
    /// The own authority's key certificate.
    Certificate,
}

/// What an item of a station input says.
#[derive(Clone, Copy)]
pub enum StationKind {
    /// `1`.
    Version,
    /// Who the own authority is.
    Source,
    /// The rest of the line as it stands, which is read no further.
    Rest,
    /// Three numbers of seconds, each below 2 ^ 64.
    Schedule,
    /// An identity, and an address with a port or `-`.
    Member,
    /// Versions of Tor, with commas between them.
    Versions,
    /// Versions of protocols.
    Protocols,
    /// Params, at most 1,024, none of them twice.
    Params,
    /// A ruling and an identity, which none of the rules before has.
    Rule,
    /// An identity, which none of the lines before has, and what was measured.
    Measured,
    /// Nothing: its arguments are ignored.
    Nothing,
    /// What an item of the certificate says.
    Certificate(CertKind),
}

/// A row: its keyword, its count and its kind.
macro_rules! row {
    ($keyword:ident, $count:ident, $kind:expr) => {
        Row {
            keyword: Keyword::$keyword,
            count: Count::$count,
            kind: $kind,
        }
    };
}

const STATION: [Row<StationKind>; 16] = [
    row!(Station, One, StationKind::Version),
    row!(Own, One, StationKind::Source),
    row!(Contact, Optional, StationKind::Rest),
    row!(
        DirKeyCertificateVersion,
        One,
        StationKind::Certificate(CertKind::Version)
    ),
    row!(Schedule, One, StationKind::Schedule),
    row!(Authority, Many, StationKind::Member),
    row!(ClientVersions, Optional, StationKind::Versions),
    row!(ServerVersions, Optional, StationKind::Versions),
    row!(RecommendedClientProtocols, Optional, StationKind::Protocols),
    row!(RecommendedRelayProtocols, Optional, StationKind::Protocols),
    row!(RequiredClientProtocols, Optional, StationKind::Protocols),
    row!(RequiredRelayProtocols, Optional, StationKind::Protocols),
    row!(Params, Optional, StationKind::Params),
    row!(Rule, Many, StationKind::Rule),
    row!(Measured, Many, StationKind::Measured),
    row!(EndStation, One, StationKind::Nothing),
];

const CERTIFICATE: [Row<StationKind>; 9] = cert_rows!(StationKind::Certificate);

impl Frame for StationFrame {
    type Section = StationSection;

    type Kind = StationKind;

    type Value = Value<StationValue>;

    type Across = Across;

    ghost tables = { λ _. tables.station_tables };

    fn first(self) -> StationSection {
        StationSection::Station
    }

    fn sections(self) -> &'static [StationSection] {
        &[StationSection::Station]
    }

    fn shape(self, section: StationSection) -> Shape<StationSection> {
        match section {
            StationSection::Station => Shape {
                opener: Keyword::Station,
                last: Some(Keyword::EndStation),
                again: Again::Nothing,
                inner: Some(StationSection::Certificate),
                limit: None,
            },
            StationSection::Certificate => cert_shape(),
        }
    }

    fn rows(self, section: StationSection) -> &'static [Row<StationKind>] {
        match section {
            StationSection::Station => &STATION,
            StationSection::Certificate => &CERTIFICATE,
        }
    }

    fn strangers(self, section: StationSection, keyword: Keyword) -> bool {
        match section {
            StationSection::Station => false,
            StationSection::Certificate => is_of_vote(keyword),
        }
    }

    fn ignores(self, _: StationKind, _: &Item<'_>) -> bool {
        false
    }

    fn value(
        self,
        across: &Across,
        kind: StationKind,
        item: &Item<'_>,
    ) -> Result<Value<StationValue>, ReadRefusal> {
        given(over_limit(kind, item))?;
        value_at(across, kind, item)
    }

    fn start(self, alloc: Global) -> Across {
        nothing_across(alloc)
    }

    fn note(
        self,
        across: &mut Across,
        one: &Taken<Value<StationValue>>,
    ) -> Result<(), ReadRefusal> {
        note_value(across, one.value)
    }
}
