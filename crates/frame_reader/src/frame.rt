// What a kind of document has: its sections, the tables of their items, and what the items say.
ghost use Rattle.std.specs.Prelude.{◌≡◌};
ghost use Rattle.dirdoc_grammar.specs.Seen.{seen_item, IsInside};
ghost use Rattle.frame_terms.specs.{Refusals.Becomes, Tables.Tables};
ghost use Rattle.frame_reader.specs.Giving as giving;
ghost use Rattle.frame_reader.specs.Giving.{Gives};

use dirdoc_grammar::Item;
use frame_terms::{FrameFault, Keyword, ReadRefusal, Row, Shape, Taken};
use std::alloc::Global;

/// A kind of document, by the tables of its sections.
pub trait Frame: Copy {
    /// Its sections.
    type Section: Copy + 'static;

    /// The kinds of its items.
    type Kind: Copy + 'static;

    /// What its items say.
    type Value: Copy + 'static;

    /// What it remembers across its items; nothing, where no rule speaks of several of them.
    type Across: Drop + 'static;

    /// Its tables.
    ghost tables: { Self → Tables Self.Section Self.Kind Self.Value Self.Across };

    /// The section that it begins with.
    fn first(self) -> Self::Section
        ensures { result ≡ (tables self).first };

    /// Its sections in order, without those inside others.
    fn sections(self) -> &'static [Self::Section]
        ensures { result.now ≡ (tables self).sections };

    /// How a section begins and ends, and what may stand inside it.
    fn shape(self, section: Self::Section) -> Shape<Self::Section>
        ensures { result ≡ (tables self).shape section };

    /// The items of a section, a row for each that it knows.
    fn rows(self, section: Self::Section) -> &'static [Row<Self::Kind>]
        ensures { result.now ≡ (tables self).rows section };

    /// Whether a keyword that none of its sections has may not stand in this one. Most documents have none such, and pass
    /// over what they do not know.
    fn strangers(self, section: Self::Section, keyword: Keyword) -> bool
        ensures { result ≡ (tables self).strangers section keyword };

    /// Whether an item of this kind is passed over, as one that the document does not know.
    fn ignores(self, kind: Self::Kind, item: &Item<'_>) -> bool
        requires { IsInside item.now }
        ensures { result ≡ (tables self).ignores kind (seen_item item.now) };

    /// What an item of a kind says.
    ///
    /// # Errors
    /// The first thing that is wrong with it, also by what is remembered of the items before it; or want of memory.
    fn value(
        self,
        across: &Self::Across,
        kind: Self::Kind,
        item: &Item<'_>,
    ) -> Result<Self::Value, ReadRefusal>
        requires { IsInside item.now }
        ensures { Gives ((tables self).value_of across.now kind (seen_item item.now)) result };

    /// What is remembered of nothing.
    fn start(self, alloc: Global) -> Self::Across
        ensures { result ≡ (tables self).start };

    /// Remembers what it has to of one more item.
    ///
    /// # Errors
    /// Why the item may not stand behind those before it, or want of memory.
    fn note(self, across: &mut Self::Across, one: &Taken<Self::Value>) -> Result<(), ReadRefusal>
        ensures { Becomes ((tables self).note across.old one.now) across.new result };
}

/// This value, or this fault as a refusal.
pub fn given<V>(value: Result<V, FrameFault>) -> Result<V, ReadRefusal>
    ensures { result ≡ giving.given_result value }
{
    match value {
        Ok(value) => Ok(value),
        Err(fault) => Err(ReadRefusal::Frame(fault)),
    }
}
