// The sections of a consensus, and the rows of their items.
ghost use Rattle.std.specs.Prelude.{◌≡◌};
ghost use Rattle.consensus_frame.specs.Tables as tables;

use consensus_terms::Flavour;
use frame_terms::{Again, Count, Keyword, Row, Shape};
use relay_entries::{EntryKind, entry_shape};

/// A section of a consensus.
#[derive(Clone, Copy, Debug)]
pub enum ConsensusSection {
    /// Its head.
    Preamble,
    /// What it says of one authority.
    Source,
    /// What it says of one relay.
    Router,
    /// Its end, with the signatures.
    Footer,
}

/// What an item of a consensus says.
#[derive(Clone, Copy, Debug)]
pub enum ConsensusKind {
    /// `3`, and `microdesc` in that flavour.
    Version,
    /// `consensus`.
    Status,
    /// A number below 2 ^ 32.
    Method,
    /// A date and a time of day.
    Time,
    /// Two numbers of seconds, each below 2 ^ 32.
    Delays,
    /// Versions of Tor.
    Versions,
    /// Flags, none of them twice.
    KnownFlags,
    /// Versions of protocols.
    Protocols,
    /// Params, none of them twice.
    Params,
    /// A shared random value: a number below 2 ^ 32, and 32 bytes in base64.
    Random,
    /// Who an authority is.
    Source,
    /// The rest of the line as it stands, which is read no further.
    Rest,
    /// 40 hex digits.
    VoteDigest,
    /// Nothing: its arguments are ignored.
    Nothing,
    /// An algorithm or none, an identity, the digest of a signing key, and a signature.
    Signature,
    /// Who a relay is and where, with the digest of its descriptor in the ns flavour.
    Relay,
    /// `Bandwidth=`, and `Unmeasured=1`.
    Bandwidth,
    /// The digest of a microdescriptor.
    MicroDigest,
    /// What an item of an entry says in every document.
    Entry(EntryKind),
}

/// A row: its keyword, its count and its kind.
macro_rules! row {
    ($keyword:ident, $count:ident, $kind:expr) => {
        Row {
            keyword: Keyword::$keyword,
            count: Count::$count,
            kind: $kind,
        }
    };
}

/// The rows of a relay, with those of its first line, its microdescriptor and its policy.
macro_rules! router_rows {
    ($micro:expr) => {
        [
            row!(R, One, ConsensusKind::Relay),
            row!(A, Many, ConsensusKind::Entry(EntryKind::Address)),
            row!(S, One, ConsensusKind::Entry(EntryKind::Flags)),
            row!(V, Optional, ConsensusKind::Rest),
            row!(Pr, Optional, ConsensusKind::Rest),
            row!(W, Optional, ConsensusKind::Bandwidth),
            row!(P, Optional, ConsensusKind::Rest),
            $micro,
            row!(Id, Optional, ConsensusKind::Entry(EntryKind::Ed)),
        ]
    };
}

const PREAMBLE: [Row<ConsensusKind>; 17] = [
    row!(NetworkStatusVersion, One, ConsensusKind::Version),
    row!(VoteStatus, One, ConsensusKind::Status),
    row!(ConsensusMethod, One, ConsensusKind::Method),
    row!(ValidAfter, One, ConsensusKind::Time),
    row!(FreshUntil, One, ConsensusKind::Time),
    row!(ValidUntil, One, ConsensusKind::Time),
    row!(VotingDelay, One, ConsensusKind::Delays),
    row!(ClientVersions, Optional, ConsensusKind::Versions),
    row!(ServerVersions, Optional, ConsensusKind::Versions),
    row!(KnownFlags, One, ConsensusKind::KnownFlags),
    row!(
        RecommendedClientProtocols,
        Optional,
        ConsensusKind::Protocols
    ),
    row!(
        RecommendedRelayProtocols,
        Optional,
        ConsensusKind::Protocols
    ),
    row!(RequiredClientProtocols, Optional, ConsensusKind::Protocols),
    row!(RequiredRelayProtocols, Optional, ConsensusKind::Protocols),
    row!(Params, Optional, ConsensusKind::Params),
    row!(SharedRandPreviousValue, Optional, ConsensusKind::Random),
    row!(SharedRandCurrentValue, Optional, ConsensusKind::Random),
];

const SOURCE: [Row<ConsensusKind>; 3] = [
    row!(DirSource, One, ConsensusKind::Source),
    row!(Contact, Optional, ConsensusKind::Rest),
    row!(VoteDigest, One, ConsensusKind::VoteDigest),
];

const NS_ROUTER: [Row<ConsensusKind>; 9] = router_rows!(row!(
    M,
    Many,
    ConsensusKind::Entry(EntryKind::Micro)
));

const MICRODESC_ROUTER: [Row<ConsensusKind>; 9] = router_rows!(row!(
    M,
    One,
    ConsensusKind::MicroDigest
));

const FOOTER: [Row<ConsensusKind>; 3] = [
    row!(DirectoryFooter, One, ConsensusKind::Nothing),
    row!(BandwidthWeights, Optional, ConsensusKind::Rest),
    row!(DirectorySignature, Many, ConsensusKind::Signature),
];

/// The sections in their order.
pub(crate) const SECTIONS: [ConsensusSection; 4] = [
    ConsensusSection::Preamble,
    ConsensusSection::Source,
    ConsensusSection::Router,
    ConsensusSection::Footer,
];

/// The items of a section; the first one opens it.
pub(crate) fn rows_of(flavour: Flavour, section: ConsensusSection) -> &'static [Row<ConsensusKind>]
    ensures { result.now ≡ tables.rows flavour section }
{
    match section {
        ConsensusSection::Preamble => &PREAMBLE,
        ConsensusSection::Source => &SOURCE,
        ConsensusSection::Router => match flavour {
            Flavour::Ns => &NS_ROUTER,
            Flavour::Microdesc => &MICRODESC_ROUTER,
        },
        ConsensusSection::Footer => &FOOTER,
    }
}

/// A section that ends where another begins, or with the input, and what one more of its opener begins.
fn section(opener: Keyword, again: Again) -> Shape<ConsensusSection>
    ensures { result ≡ tables.section opener again }
{
    Shape {
        opener,
        last: None,
        again,
        inner: None,
        limit: None,
    }
}

/// How a section begins and ends.
pub(crate) fn shape_of(name: ConsensusSection) -> Shape<ConsensusSection>
    ensures { result ≡ tables.shape name }
{
    match name {
        ConsensusSection::Preamble => section(Keyword::NetworkStatusVersion, Again::Nothing),
        ConsensusSection::Source => section(Keyword::DirSource, Again::Section),
        ConsensusSection::Router => entry_shape(),
        ConsensusSection::Footer => section(Keyword::DirectoryFooter, Again::Nothing),
    }
}
