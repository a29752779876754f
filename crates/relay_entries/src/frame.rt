// The rows of an entry, in every document that lists relays.
ghost use Rattle.std.specs.Prelude.{◌≡◌};
ghost use Rattle.relay_entries.specs.Tables as tables;

use frame_terms::{Again, Keyword, Shape};

/// The rows of an entry, the first one that of its opener, in a document that has their kinds in a variant of its own:
/// `entry_rows!(VoteKind::Entry)`.
#[macro_export]
macro_rules! entry_rows {
    ($($variant:ident)::*) => {
        [
            $crate::entry_row!(R, One, $($variant)::*($crate::EntryKind::Relay)),
            $crate::entry_row!(A, Many, $($variant)::*($crate::EntryKind::Address)),
            $crate::entry_row!(S, One, $($variant)::*($crate::EntryKind::Flags)),
            $crate::entry_row!(V, Optional, $($variant)::*($crate::EntryKind::Rest)),
            $crate::entry_row!(Pr, Optional, $($variant)::*($crate::EntryKind::Rest)),
            $crate::entry_row!(W, Optional, $($variant)::*($crate::EntryKind::Bandwidths)),
            $crate::entry_row!(P, Optional, $($variant)::*($crate::EntryKind::Rest)),
            $crate::entry_row!(M, Many, $($variant)::*($crate::EntryKind::Micro)),
            $crate::entry_row!(Id, Optional, $($variant)::*($crate::EntryKind::Ed)),
        ]
    };
}

/// A row of an entry: its keyword, its count and its kind.
#[macro_export]
macro_rules! entry_row {
    ($keyword:ident, $count:ident, $kind:expr) => {
        frame_terms::Row {
            keyword: frame_terms::Keyword::$keyword,
            count: frame_terms::Count::$count,
            kind: $kind,
        }
    };
}

/// How an entry begins and ends: one more opener begins the next.
pub fn entry_shape<S>() -> Shape<S>
    ensures { result ≡ tables.entry_shape }
{
    Shape {
        opener: Keyword::R,
        last: None,
        again: Again::Section,
        inner: None,
        limit: None,
    }
}
