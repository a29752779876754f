// The frame of a vote: its sections, and the tables of their items.
ghost use Rattle.std.specs.Prelude.{◌≡◌};
ghost use Rattle.vote_frame.specs.Tables as tables;

use crate::across::{Across, nothing_across};
use crate::value::{note_value, over_limit, value_at};
use authority_certs::{CertKind, cert_rows, cert_shape};
use dirdoc_grammar::Item;
use frame_reader::{Frame, given};
use frame_terms::{Again, Count, Keyword, ReadRefusal, Row, Shape, Taken};
use frame_values::{DirSource, Value, VoteSignature};
use relay_entries::{EntryKind, EntryValue, entry_rows, entry_shape, is_ignored};
use std::alloc::Global;
use value_groups::{RandomLine, SharedRandom};

/// A vote, as a kind of document.
#[derive(Clone, Copy, Debug)]
pub struct VoteFrame;

/// A section of a vote.
#[derive(Clone, Copy, Debug)]
pub enum VoteSection {
    /// Its head.
    Preamble,
    /// What it says of its authority.
    Authority,
    /// The authority's key certificate.
    Certificate,
    /// What it says of one relay.
    Entry,
    /// Its end, with the signature.
    Footer,
}

/// What an item of a vote says.
#[derive(Clone, Copy, Debug)]
pub enum VoteKind {
    /// `3`.
    Version,
    /// `vote`.
    Status,
    /// Numbers below 2 ^ 32, at most 64.
    Methods,
    /// A date and a time of day.
    Time,
    /// Two numbers of seconds, each below 2 ^ 32.
    Delays,
    /// Flags, at most 64, none of them twice.
    KnownFlags,
    /// Versions of Tor, with commas between them.
    Versions,
    /// Versions of protocols.
    Protocols,
    /// Params, at most 1,024, none of them twice.
    Params,
    /// The rest of the line as it stands, which is read no further.
    Rest,
    /// Who the authority is.
    Source,
    /// A shared random value: a number below 2 ^ 32, and 32 bytes in base64.
    Random(RandomLine),
    /// Nothing: its arguments are ignored.
    Nothing,
    /// An algorithm or none, an identity, the digest of a signing key, and a signature.
    Signature,
    /// What an item of the certificate says.
    Certificate(CertKind),
    /// What an item of an entry says.
    Entry(EntryKind),
}

/// What only items of a vote say.
#[derive(Clone, Copy, Debug)]
pub enum VoteValue {
    /// Two numbers of seconds.
    Delays(u32, u32),
    /// Who the authority is.
    Source(DirSource),
    /// A shared random value, or the place of what is wrong with it.
    Random(RandomLine, Result<SharedRandom, u64>),
    /// The signature.
    Signature(VoteSignature),
    /// What an item of an entry says.
    Entry(EntryValue),
}

/// A row: its keyword, its count and its kind.
macro_rules! row {
    ($keyword:ident, $count:ident, $kind:expr) => {
        Row {
            keyword: Keyword::$keyword,
            count: Count::$count,
            kind: $kind,
        }
    };
}

const PREAMBLE: [Row<VoteKind>; 19] = [
    row!(NetworkStatusVersion, One, VoteKind::Version),
    row!(VoteStatus, One, VoteKind::Status),
    row!(ConsensusMethods, Optional, VoteKind::Methods),
    row!(Published, One, VoteKind::Time),
    row!(ValidAfter, One, VoteKind::Time),
    row!(FreshUntil, One, VoteKind::Time),
    row!(ValidUntil, One, VoteKind::Time),
    row!(VotingDelay, One, VoteKind::Delays),
    row!(ClientVersions, Optional, VoteKind::Versions),
    row!(ServerVersions, Optional, VoteKind::Versions),
    row!(KnownFlags, One, VoteKind::KnownFlags),
    row!(FlagThresholds, Optional, VoteKind::Rest),
    row!(RecommendedClientProtocols, Optional, VoteKind::Protocols),
    row!(RecommendedRelayProtocols, Optional, VoteKind::Protocols),
    row!(RequiredClientProtocols, Optional, VoteKind::Protocols),
    row!(RequiredRelayProtocols, Optional, VoteKind::Protocols),
    row!(Params, Optional, VoteKind::Params),
    row!(
        SharedRandPreviousValue,
        Optional,
        VoteKind::Random(RandomLine::Previous)
    ),
    row!(
        SharedRandCurrentValue,
        Optional,
        VoteKind::Random(RandomLine::Current)
    ),
];

const AUTHORITY: [Row<VoteKind>; 5] = [
    row!(DirSource, One, VoteKind::Source),
    row!(Contact, Optional, VoteKind::Rest),
    row!(
        SharedRandPreviousValue,
        Optional,
        VoteKind::Random(RandomLine::Previous)
    ),
    row!(
        SharedRandCurrentValue,
        Optional,
        VoteKind::Random(RandomLine::Current)
    ),
    row!(DirKeyCertificateVersion, One, VoteKind::Version),
];

const CERTIFICATE: [Row<VoteKind>; 9] = cert_rows!(VoteKind::Certificate);

const ENTRY: [Row<VoteKind>; 9] = entry_rows!(VoteKind::Entry);

const FOOTER: [Row<VoteKind>; 2] = [
    row!(DirectoryFooter, One, VoteKind::Nothing),
    row!(DirectorySignature, One, VoteKind::Signature),
];

const SECTIONS: [VoteSection; 4] = [
    VoteSection::Preamble,
    VoteSection::Authority,
    VoteSection::Entry,
    VoteSection::Footer,
];

/// A section that stands once, and ends where another begins.
fn plain(opener: Keyword) -> Shape<VoteSection>
    ensures { result ≡ tables.plain opener }
{
    Shape {
        opener,
        last: None,
        again: Again::Nothing,
        inner: None,
        limit: None,
    }
}

impl Frame for VoteFrame {
    type Section = VoteSection;

    type Kind = VoteKind;

    type Value = Value<VoteValue>;

    type Across = Across;

    ghost tables = { λ _. tables.vote_tables };

    fn first(self) -> VoteSection {
        VoteSection::Preamble
    }

    fn sections(self) -> &'static [VoteSection] {
        &SECTIONS
    }

    fn shape(self, section: VoteSection) -> Shape<VoteSection> {
        match section {
            VoteSection::Preamble => plain(Keyword::NetworkStatusVersion),
            VoteSection::Authority => Shape {
                inner: Some(VoteSection::Certificate),
                ..plain(Keyword::DirSource)
            },
            VoteSection::Certificate => cert_shape(),
            VoteSection::Entry => entry_shape(),
            VoteSection::Footer => Shape {
                last: Some(Keyword::DirectorySignature),
                ..plain(Keyword::DirectoryFooter)
            },
        }
    }

    fn rows(self, section: VoteSection) -> &'static [Row<VoteKind>] {
        match section {
            VoteSection::Preamble => &PREAMBLE,
            VoteSection::Authority => &AUTHORITY,
            VoteSection::Certificate => &CERTIFICATE,
            VoteSection::Entry => &ENTRY,
            VoteSection::Footer => &FOOTER,
        }
    }

    fn strangers(self, _: VoteSection, _: Keyword) -> bool {
        false
    }

    fn ignores(self, kind: VoteKind, item: &Item<'_>) -> bool {
        match kind {
            VoteKind::Entry(kind) => is_ignored(kind, item),
            _ => false,
        }
    }

    fn value(
        self,
        across: &Across,
        kind: VoteKind,
        item: &Item<'_>,
    ) -> Result<Value<VoteValue>, ReadRefusal> {
        given(over_limit(&across.listed, kind, item))?;
        value_at(&across.listed, kind, item)
    }

    fn start(self, alloc: Global) -> Across {
        nothing_across(alloc)
    }

    fn note(self, across: &mut Across, one: &Taken<Value<VoteValue>>) -> Result<(), ReadRefusal> {
        note_value(across, one.place, one.value)
    }
}
