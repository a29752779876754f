// How an item is taken into a document.
ghost use Rattle.std.specs.Prelude.{◌≡◌, []};
ghost use Rattle.dirdoc_grammar.specs.Seen.{seen_item, IsInside};
ghost use Rattle.frame_terms.specs.declared.document.Made.TheVariants as made;
ghost use Rattle.frame_terms.specs.Sections as sections;
ghost use Rattle.frame_terms.specs.Standing.{as_made};
ghost use Rattle.frame_reader.specs.Turning.{Continues, Ends, Goes, Takes, Turns};

use crate::decision::step_by;
use crate::document::Facts;
use crate::frame::Frame;
use crate::section::accept;
use crate::step::Step;
use dir_bytes::Seq;
use dirdoc_grammar::Item;
use frame_terms::{Group, Open, ReadRefusal, Row, Taken};
use std::alloc::Global;

/// Reads an item of this row behind those that are taken, and remembers what it has to of it.
fn take<F: Frame>(
    frame: F,
    across: &mut F::Across,
    row: Row<F::Kind>,
    taken: &[Taken<F::Value>],
    item: &Item<'_>,
) -> Result<Taken<F::Value>, ReadRefusal>
    requires { IsInside item.now }
    ensures { Takes (F.tables frame) row taken.now (seen_item item.now) across.old across.new result }
{
    let one = accept(frame, across, row, taken, item)?;
    frame.note(across, &one)?;
    Ok(one)
}

/// One more item of the section.
fn pushes<F: Frame>(
    frame: F,
    across: &mut F::Across,
    state: &mut Open<F::Section, F::Value>,
    row: Row<F::Kind>,
    item: &Item<'_>,
) -> Result<(), ReadRefusal>
    requires { IsInside item.now }
    ensures { Continues (F.tables frame) (as_made made.Pushes (sections.accept (F.tables frame) across.old row state.old.taken (seen_item item.now))) (seen_item item.now) across.old state.old across.new state.new result }
{
    let one = take(frame, across, row, state.taken.as_slice(), item)?;
    state.taken.push(one)?;
    Ok(())
}

/// A section ends, and the next one begins with an item.
fn opens<F: Frame, K: Facts<F>>(
    frame: F,
    across: &mut F::Across,
    state: &mut Open<F::Section, F::Value>,
    facts: &mut K,
    next: F::Section,
    row: Row<F::Kind>,
    item: &Item<'_>,
) -> Result<(), ReadRefusal>
    requires { IsInside item.now }
    ensures { Goes K.with (F.tables frame) (as_made (made.Opens next) (sections.accept (F.tables frame) across.old row [] (seen_item item.now))) (seen_item item.now) across.old state.old facts.old across.new state.new facts.new result }
{
    let none: [Taken<F::Value>; 0] = [];
    let one = take(frame, across, row, &none, item)?;
    facts.close(state.section, state.taken.as_slice())?;
    state.taken.clear();
    state.taken.push(one)?;
    state.section = next;
    Ok(())
}

/// A section begins with an item, inside the one that is open.
fn enters<F: Frame>(
    alloc: Global,
    frame: F,
    across: &mut F::Across,
    state: &mut Open<F::Section, F::Value>,
    inner: F::Section,
    row: Row<F::Kind>,
    item: &Item<'_>,
) -> Result<(), ReadRefusal>
    requires { IsInside item.now }
    ensures { Continues (F.tables frame) (as_made (made.Enters inner) (sections.accept (F.tables frame) across.old row state.old.taken (seen_item item.now))) (seen_item item.now) across.old state.old across.new state.new result }
{
    let one = take(frame, across, row, state.taken.as_slice(), item)?;
    state.taken.push(one)?;
    let mut taken = Seq::new(Vec::new(alloc));
    taken.push(one)?;
    let around = Group {
        section: state.section,
        taken: std::mem::replace(&mut state.taken, taken),
    };
    state.around = Some(around);
    state.section = inner;
    Ok(())
}

/// A section ends with an item, and the one around it goes on.
fn leaves<F: Frame, K: Facts<F>>(
    frame: F,
    across: &mut F::Across,
    state: &mut Open<F::Section, F::Value>,
    facts: &mut K,
    row: Row<F::Kind>,
    item: &Item<'_>,
) -> Result<(), ReadRefusal>
    requires { IsInside item.now }
    ensures { Goes K.with (F.tables frame) (as_made made.Leaves (sections.accept (F.tables frame) across.old row state.old.taken (seen_item item.now))) (seen_item item.now) across.old state.old facts.old across.new state.new facts.new result }
{
    let one = take(frame, across, row, state.taken.as_slice(), item)?;
    state.taken.push(one)?;
    facts.close(state.section, state.taken.as_slice())?;
    match state.around.take() {
        Some(group) => {
            state.section = group.section;
            state.taken = group.taken;
        }
        None => state.taken.clear(),
    }
    Ok(())
}

/// A section ends with an item, and the document too.
fn ends<F: Frame, K: Facts<F>>(
    frame: F,
    across: &mut F::Across,
    state: &mut Open<F::Section, F::Value>,
    facts: &mut K,
    row: Row<F::Kind>,
    item: &Item<'_>,
) -> Result<u64, ReadRefusal>
    requires { IsInside item.now }
    ensures { Ends K.with (F.tables frame) (as_made made.Ends (sections.accept (F.tables frame) across.old row state.old.taken (seen_item item.now))) (seen_item item.now) across.old state.old facts.old facts.new result }
{
    let one = take(frame, across, row, state.taken.as_slice(), item)?;
    state.taken.push(one)?;
    facts.close(state.section, state.taken.as_slice())?;
    Ok(item.after)
}

/// Takes the next item. Gives the place after the document where it ends there.
#[tactic(auto, unfolding(frame_terms::specs::Documents::read_items))]
pub fn turn<F: Frame, K: Facts<F>>(
    alloc: Global,
    frame: F,
    across: &mut F::Across,
    state: &mut Open<F::Section, F::Value>,
    facts: &mut K,
    item: &Item<'_>,
) -> Result<Option<u64>, ReadRefusal>
    requires { IsInside item.now }
    ensures { Turns K.with (F.tables frame) (seen_item item.now) across.old state.old facts.old across.new state.new facts.new result }
{
    match step_by(frame, state, item)? {
        Step::Passes => Ok(None),
        Step::Pushes(row) => {
            pushes(frame, across, state, row, item)?;
            Ok(None)
        }
        Step::Opens(next, row) => {
            opens(frame, across, state, facts, next, row, item)?;
            Ok(None)
        }
        Step::Enters(inner, row) => {
            enters(alloc, frame, across, state, inner, row, item)?;
            Ok(None)
        }
        Step::Leaves(row) => {
            leaves(frame, across, state, facts, row, item)?;
            Ok(None)
        }
        Step::Ends(row) => Ok(Some(ends(frame, across, state, facts, row, item)?)),
        Step::Stops => {
            facts.close(state.section, state.taken.as_slice())?;
            Ok(Some(item.place))
        }
    }
}
