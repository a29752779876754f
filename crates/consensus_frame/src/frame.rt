// The frame of a consensus.
ghost use Rattle.std.specs.Prelude.{◌≡◌};
ghost use Rattle.consensus_frame.specs.Tables as tables;

use crate::across::Across;
use crate::rows::{ConsensusKind, ConsensusSection, SECTIONS, rows_of, shape_of};
use crate::value::{ConsensusValue, note_value, value_at};
use consensus_terms::Flavour;
use dirdoc_grammar::Item;
use frame_reader::Frame;
use frame_terms::{Keyword, ReadRefusal, Row, Shape, Taken};
use frame_values::Value;
use relay_entries::{is_ignored, none_listed};
use std::alloc::Global;

/// A consensus of a flavour, as a kind of document.
#[derive(Clone, Copy, Debug)]
pub struct ConsensusFrame {
    /// The flavour.
    pub flavour: Flavour,
}

impl Frame for ConsensusFrame {
    type Section = ConsensusSection;

    type Kind = ConsensusKind;

    type Value = Value<ConsensusValue>;

    type Across = Across;

    ghost tables = { λ frame. tables.consensus_tables frame.flavour };

    fn first(self) -> ConsensusSection {
        ConsensusSection::Preamble
    }

    fn sections(self) -> &'static [ConsensusSection] {
        &SECTIONS
    }

    fn shape(self, section: ConsensusSection) -> Shape<ConsensusSection> {
        shape_of(section)
    }

    fn rows(self, section: ConsensusSection) -> &'static [Row<ConsensusKind>] {
        rows_of(self.flavour, section)
    }

    fn strangers(self, _: ConsensusSection, _: Keyword) -> bool {
        false
    }

    fn ignores(self, kind: ConsensusKind, item: &Item<'_>) -> bool {
        match kind {
            ConsensusKind::Entry(kind) => is_ignored(kind, item),
            _ => false,
        }
    }

    fn value(
        self,
        across: &Across,
        kind: ConsensusKind,
        item: &Item<'_>,
    ) -> Result<Value<ConsensusValue>, ReadRefusal> {
        value_at(self.flavour, across, kind, item)
    }

    fn start(self, alloc: Global) -> Across {
        Across {
            listed: none_listed(alloc),
            is_signed: false,
        }
    }

    fn note(
        self,
        across: &mut Across,
        one: &Taken<Value<ConsensusValue>>,
    ) -> Result<(), ReadRefusal> {
        note_value(across, one.place, one.value)
    }
}
