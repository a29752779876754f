// The frame of a microdescriptor: the table of its items.
ghost use Rattle.std.specs.Prelude.{◌≡◌};
ghost use Rattle.dirdoc_grammar.specs.Seen.{seen_item, IsInside};
ghost use Rattle.micro_desc.specs.Lines as lines;
ghost use Rattle.micro_desc.specs.Tables as tables;

use crate::lines::{id_of, onion_key_of};
use crate::said::{MicroKind, MicroValue};
use descriptor_frame::key_of;
use dirdoc_grammar::Item;
use frame_reader::{Frame, given};
use frame_terms::{Again, Count, Keyword, ReadRefusal, Row, Shape, Taken};
use frame_values::{Value, at_place, rest_of};
use std::alloc::Global;

/// A microdescriptor, as a kind of document. Its one section has no name.
#[derive(Clone, Copy, Debug)]
pub struct MicroFrame;

/// A row: its keyword, its count and its kind.
macro_rules! row {
    ($keyword:ident, $count:ident, $kind:ident) => {
        Row {
            keyword: Keyword::$keyword,
            count: Count::$count,
            kind: MicroKind::$kind,
        }
    };
}

const ROWS: [Row<MicroKind>; 7] = [
    row!(OnionKey, One, OnionKey),
    row!(NtorOnionKey, Optional, Key),
    row!(Family, Optional, Rest),
    row!(FamilyIds, Optional, Rest),
    row!(P, Optional, Rest),
    row!(P6, Optional, Rest),
    row!(Id, Optional, Id),
];

/// What an item says.
///
/// # Errors
/// The place of what is wrong.
fn value_of(kind: MicroKind, item: &Item<'_>) -> Result<Value<MicroValue>, u64>
    requires { IsInside item.now }
    ensures { result ≡ lines.value_at kind (seen_item item.now) }
{
    match kind {
        MicroKind::OnionKey => Ok(Value::Own(MicroValue::OnionKey(onion_key_of(item)))),
        MicroKind::Key => Ok(Value::Own(MicroValue::Key(key_of(item)?))),
        MicroKind::Rest => Ok(Value::Text(rest_of(item))),
        MicroKind::Id => Ok(Value::Own(MicroValue::Id(id_of(item)?))),
    }
}

impl Frame for MicroFrame {
    type Section = ();

    type Kind = MicroKind;

    type Value = Value<MicroValue>;

    type Across = ();

    ghost tables = { λ _. tables.micro_tables };

    fn first(self) {}

    fn sections(self) -> &'static [()] {
        &[()]
    }

    fn shape(self, _: ()) -> Shape<()> {
        Shape {
            opener: Keyword::OnionKey,
            last: None,
            again: Again::Document,
            inner: None,
            limit: None,
        }
    }

    fn rows(self, _: ()) -> &'static [Row<MicroKind>] {
        &ROWS
    }

    fn strangers(self, _: (), _: Keyword) -> bool {
        false
    }

    fn ignores(self, _: MicroKind, _: &Item<'_>) -> bool {
        false
    }

    fn value(
        self,
        _: &(),
        kind: MicroKind,
        item: &Item<'_>,
    ) -> Result<Value<MicroValue>, ReadRefusal> {
        given(at_place(value_of(kind, item)))
    }

    fn start(self, _: Global) {}

    fn note(self, _: &mut (), _: &Taken<Value<MicroValue>>) -> Result<(), ReadRefusal> {
        Ok(())
    }
}
