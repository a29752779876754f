// How an item is to be taken that is not the first of its document.
ghost use Rattle.std.specs.Prelude.{◌≡◌};
ghost use Rattle.dirdoc_grammar.specs.Seen.{seen_item, IsInside};
ghost use Rattle.frame_terms.specs.Order as order;
ghost use Rattle.frame_terms.specs.Standing as standing;
ghost use Rattle.frame_reader.specs.Steps as steps;
ghost use Rattle.frame_reader.specs.Steps.{Leads};

use crate::frame::Frame;
use crate::order::{
    first_of, following, inner, is_keyword, is_strange, opened_by, opener, passed_over,
};
use crate::section::{lacking, lacking_but, refused, row_of};
use crate::step::Step;
use dirdoc_grammar::Item;
use frame_terms::{Again, FrameReason, Group, Keyword, Open, ReadRefusal, Row};

/// The last item of a section, by whether there is one around it.
fn ends<S, K, V>(around: &Option<Group<S, V>>, row: Row<K>) -> Step<S, K>
    ensures { result ≡ steps.last_step around.now row }
{
    match around {
        Some(_) => Step::Leaves(row),
        None => Step::Ends(row),
    }
}

/// An item of a section, and the section that it begins inside it if there is one.
fn enters<S, K>(inner: Option<S>, row: Row<K>) -> Step<S, K>
    ensures { result ≡ steps.next_step inner row }
{
    match inner {
        None => Step::Pushes(row),
        Some(section) => Step::Enters(section, row),
    }
}

/// What an item of this row begins, of the section that is open.
fn begins_again<F: Frame>(frame: F, section: F::Section, row: Row<F::Kind>) -> Again
    ensures { result ≡ standing.begins_again (F.tables frame) section row }
{
    if opener(frame, section).same(row.keyword) {
        frame.shape(section).again
    } else {
        Again::Nothing
    }
}

/// An item of this row of the section that is open, which does not end with it.
fn goes_on<F: Frame>(
    frame: F,
    state: &Open<F::Section, F::Value>,
    item: &Item<'_>,
    row: Row<F::Kind>,
    again: Again,
) -> Result<Step<F::Section, F::Kind>, ReadRefusal>
    requires { IsInside item.now }
    ensures { Leads (F.tables frame) state.now.taken (seen_item item.now) result (λ across. standing.goes_on (F.tables frame) across state.now (seen_item item.now) row again) }
{
    if let Again::Nothing = again {
        return Ok(enters(inner(frame, state.section, row.keyword), row));
    }
    if let Some(missing) = lacking(frame.rows(state.section), state.taken.as_slice()) {
        return Err(refused(item.place, FrameReason::Missing(missing)));
    }
    if let Again::Document = again {
        return Ok(Step::Stops);
    }
    Ok(Step::Opens(state.section, row))
}

/// An item of this row of the section that is open.
#[tactic(auto, using(crate::proofs::Stepping::last_made))]
fn in_section<F: Frame>(
    frame: F,
    state: &Open<F::Section, F::Value>,
    item: &Item<'_>,
    row: Row<F::Kind>,
) -> Result<Step<F::Section, F::Kind>, ReadRefusal>
    requires { IsInside item.now }
    ensures { Leads (F.tables frame) state.now.taken (seen_item item.now) result (λ across. standing.in_section (F.tables frame) across state.now (seen_item item.now) row) }
{
    let taken = state.taken.as_slice();
    if is_keyword(frame.shape(state.section).last, row.keyword) {
        if let Some(missing) = lacking_but(frame.rows(state.section), row.keyword, taken) {
            return Err(refused(item.place, FrameReason::Missing(missing)));
        }
        return Ok(ends(&state.around, row));
    }
    goes_on(
        frame,
        state,
        item,
        row,
        begins_again(frame, state.section, row),
    )
}

/// An item of no row of the section that is open.
fn elsewhere<F: Frame>(
    frame: F,
    state: &Open<F::Section, F::Value>,
    item: &Item<'_>,
    keyword: Keyword,
) -> Result<Step<F::Section, F::Kind>, ReadRefusal>
    requires { IsInside item.now }
    ensures { Leads (F.tables frame) state.now.taken (seen_item item.now) result (λ across. standing.elsewhere (F.tables frame) across state.now (seen_item item.now) keyword (order.opened_by (F.tables frame) keyword (order.following_sections (F.tables frame) state.now.section))) }
{
    let later = following(frame, state.section);
    let Some(other) = opened_by(frame, keyword, later) else {
        if is_strange(frame, state.section, keyword) {
            return Err(refused(item.place, FrameReason::Order));
        }
        return Ok(Step::Passes);
    };
    let missing = lacking(frame.rows(state.section), state.taken.as_slice());
    if let Some(missing) = first_of(missing, passed_over(frame, keyword, later)) {
        return Err(refused(item.place, FrameReason::Missing(missing)));
    }
    match row_of(frame.rows(other), keyword) {
        None => Ok(Step::Passes),
        Some(row) => Ok(Step::Opens(other, row)),
    }
}

/// How an item is to be taken that is not the first of its document.
pub fn by_keyword<F: Frame>(
    frame: F,
    state: &Open<F::Section, F::Value>,
    item: &Item<'_>,
    keyword: Option<Keyword>,
) -> Result<Step<F::Section, F::Kind>, ReadRefusal>
    requires { IsInside item.now }
    ensures { Leads (F.tables frame) state.now.taken (seen_item item.now) result (λ across. standing.by_keyword (F.tables frame) across state.now (seen_item item.now) keyword) }
{
    let Some(keyword) = keyword else {
        return Ok(Step::Passes);
    };
    match row_of(frame.rows(state.section), keyword) {
        Some(row) => {
            if frame.ignores(row.kind, item) {
                Ok(Step::Passes)
            } else {
                in_section(frame, state, item, row)
            }
        }
        None => elsewhere(frame, state, item, keyword),
    }
}
