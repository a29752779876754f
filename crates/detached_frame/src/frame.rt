// The frame of detached signatures: the table of their items.
ghost use Rattle.std.specs.Prelude.{◌≡◌};
ghost use Rattle.dirdoc_grammar.specs.Seen.{seen_item, IsInside};
ghost use Rattle.detached_frame.specs.Tables as tables;

use crate::lines::{additional_digest_of, additional_signature_of, digest_of};
use crate::said::{DetachedKind, DetachedValue};
use dirdoc_grammar::Item;
use frame_reader::{Frame, given};
use frame_terms::{Again, Count, Keyword, ReadRefusal, Row, Shape, Taken};
use frame_values::{Value, at_place, known_signature_of, time_of};
use std::alloc::Global;

/// Detached signatures, as a kind of document. Its one section has no name.
#[derive(Clone, Copy)]
pub struct DetachedFrame;

/// A row: its keyword, its count and its kind.
macro_rules! row {
    ($keyword:ident, $count:ident, $kind:ident) => {
        Row {
            keyword: Keyword::$keyword,
            count: Count::$count,
            kind: DetachedKind::$kind,
        }
    };
}

const ROWS: [Row<DetachedKind>; 7] = [
    row!(ConsensusDigest, One, Digest),
    row!(ValidAfter, One, Time),
    row!(FreshUntil, One, Time),
    row!(ValidUntil, One, Time),
    row!(AdditionalDigest, Many, AdditionalDigest),
    row!(AdditionalSignature, Many, AdditionalSignature),
    row!(DirectorySignature, Many, Signature),
];

/// What an item says.
///
/// # Errors
/// The place of what is wrong.
fn value_of(kind: DetachedKind, item: &Item<'_>) -> Result<Value<DetachedValue>, u64>
    requires { IsInside item.now }
    ensures { result ≡ tables.value_at kind (seen_item item.now) }
{
    match kind {
        DetachedKind::Digest => Ok(Value::Own(DetachedValue::Digest(digest_of(item)?))),
        DetachedKind::Time => Ok(Value::Number(time_of(item)?)),
        DetachedKind::AdditionalDigest => {
            let line = additional_digest_of(item)?;
            Ok(Value::Own(DetachedValue::AdditionalDigest(line)))
        }
        DetachedKind::AdditionalSignature => {
            let line = additional_signature_of(item)?;
            Ok(Value::Own(DetachedValue::AdditionalSignature(line)))
        }
        DetachedKind::Signature => {
            let signature = known_signature_of(item)?;
            Ok(Value::Own(DetachedValue::Signature(signature)))
        }
    }
}

impl Frame for DetachedFrame {
    type Section = ();

    type Kind = DetachedKind;

    type Value = Value<DetachedValue>;

    type Across = ();

    ghost tables = { λ _. tables.detached_tables };

    fn first(self) {}

    fn sections(self) -> &'static [()] {
        &[()]
    }

    fn shape(self, _: ()) -> Shape<()> {
        Shape {
            opener: Keyword::ConsensusDigest,
            last: None,
            again: Again::Nothing,
            inner: None,
            limit: None,
        }
    }

    fn rows(self, _: ()) -> &'static [Row<DetachedKind>] {
        &ROWS
    }

    fn strangers(self, _: (), _: Keyword) -> bool {
        false
    }

    fn ignores(self, _: DetachedKind, _: &Item<'_>) -> bool {
        false
    }

    fn value(
        self,
        _: &(),
        kind: DetachedKind,
        item: &Item<'_>,
    ) -> Result<Value<DetachedValue>, ReadRefusal> {
        given(at_place(value_of(kind, item)))
    }

    fn start(self, _: Global) {}

    fn note(self, _: &mut (), _: &Taken<Value<DetachedValue>>) -> Result<(), ReadRefusal> {
        Ok(())
    }
}
