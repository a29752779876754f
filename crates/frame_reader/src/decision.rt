// How an item is to be taken into a document.
ghost use Rattle.std.specs.Prelude.{◌≡◌, []};
ghost use Rattle.dirdoc_grammar.specs.Seen.{seen_item, IsInside};
ghost use Rattle.frame_terms.specs.Decisions as decisions;
ghost use Rattle.frame_reader.specs.Steps.{Leads};

use crate::frame::Frame;
use crate::order::{begins_document, inner, opener};
use crate::section::{refused, row_of, stands};
use crate::standing::by_keyword;
use crate::step::Step;
use dirdoc_grammar::Item;
use frame_terms::{
    FrameFault, FrameReason, Group, Keyword, Limit, Open, ReadRefusal, Taken, keyword_of,
};

fn beginning_reason<F: Frame>(frame: F, keyword: Option<Keyword>) -> Option<FrameReason>
    ensures { result ≡ decisions.beginning_reason (F.tables frame) keyword }
{
    if begins_document(frame, keyword) {
        None
    } else {
        Some(FrameReason::Missing(opener(frame, frame.first())))
    }
}

/// Why an item can not be the first of a document of a kind, whatever it says: the document
/// begins with another keyword. None where it can.
pub fn first_fault<F: Frame>(frame: F, item: &Item<'_>) -> Option<FrameFault>
    ensures { result ≡ decisions.first_fault (F.tables frame) (seen_item item.now) }
{
    match beginning_reason(frame, keyword_of(item.keyword)) {
        Some(reason) => Some(FrameFault {
            place: item.place,
            reason,
        }),
        None => None,
    }
}

/// How an item is to be taken that may be the first of its document.
fn first_item<F: Frame>(
    frame: F,
    item: &Item<'_>,
    keyword: Option<Keyword>,
) -> Result<Step<F::Section, F::Kind>, ReadRefusal>
    requires { IsInside item.now }
    ensures { Leads (F.tables frame) [] (seen_item item.now) result (λ across. decisions.first_item (F.tables frame) across (seen_item item.now) keyword) }
{
    let Some(keyword) = keyword else {
        return Ok(Step::Passes);
    };
    match row_of(frame.rows(frame.first()), keyword) {
        None => Ok(Step::Passes),
        Some(row) => Ok(Step::Pushes(row)),
    }
}

/// The fault of an item that ends too far from a place, if that is limited.
fn beyond(start: u64, limit: Option<Limit>, item: &Item<'_>) -> Option<FrameFault>
    ensures { result ≡ decisions.beyond start limit (seen_item item.now) }
{
    let limit = limit?;
    if item.after.saturating_sub(start) > limit.number() {
        Some(FrameFault {
            place: start + limit.number(),
            reason: FrameReason::TooMany(limit),
        })
    } else {
        None
    }
}

fn first_place<V>(taken: &[Taken<V>]) -> u64
    ensures { result ≡ decisions.first_place taken.now }
{
    match taken {
        [] => 0,
        [one, ..] => one.place,
    }
}

/// The section that an item of this keyword begins inside the one that is open.
fn section_inside<F: Frame>(
    frame: F,
    section: F::Section,
    taken: &[Taken<F::Value>],
    keyword: Option<Keyword>,
) -> Option<F::Section>
    ensures { result ≡ decisions.section_inside (F.tables frame) section taken.now keyword }
{
    let keyword = keyword?;
    let section = inner(frame, section, keyword)?;
    if stands(keyword, taken) {
        None
    } else {
        Some(section)
    }
}

fn beyond_inside<F: Frame>(
    frame: F,
    item: &Item<'_>,
    inside: Option<F::Section>,
) -> Option<FrameFault>
    ensures { result ≡ decisions.beyond_inside (F.tables frame) (seen_item item.now) inside }
{
    match inside {
        Some(section) => beyond(item.place, frame.shape(section).limit, item),
        None => None,
    }
}

/// The fault of an item of a section that may stand inside another, where that section has too many bytes.
fn beyond_inner<F: Frame>(
    frame: F,
    section: F::Section,
    taken: &[Taken<F::Value>],
    around: &Option<Group<F::Section, F::Value>>,
    item: &Item<'_>,
    keyword: Option<Keyword>,
) -> Option<FrameFault>
    ensures { result ≡ decisions.beyond_inner (F.tables frame) section taken.now around.now (seen_item item.now) keyword }
{
    match around {
        Some(_) => beyond(first_place(taken), frame.shape(section).limit, item),
        None => beyond_inside(frame, item, section_inside(frame, section, taken, keyword)),
    }
}

/// How the first item of a document is to be taken.
fn step_first<F: Frame>(
    frame: F,
    item: &Item<'_>,
    keyword: Option<Keyword>,
) -> Result<Step<F::Section, F::Kind>, ReadRefusal>
    requires { IsInside item.now }
    ensures { Leads (F.tables frame) [] (seen_item item.now) result (λ across. decisions.made_first (F.tables frame) across (seen_item item.now) keyword) }
{
    match beginning_reason(frame, keyword) {
        Some(reason) => Err(refused(item.place, reason)),
        None => first_item(frame, item, keyword),
    }
}

/// How a later item is to be taken.
fn step_later<F: Frame>(
    frame: F,
    state: &Open<F::Section, F::Value>,
    item: &Item<'_>,
    keyword: Option<Keyword>,
) -> Result<Step<F::Section, F::Kind>, ReadRefusal>
    requires { IsInside item.now }
    ensures { Leads (F.tables frame) state.now.taken (seen_item item.now) result (λ across. decisions.made_later (F.tables frame) across state.now (seen_item item.now) keyword) }
{
    let taken = state.taken.as_slice();
    match beyond_inner(frame, state.section, taken, &state.around, item, keyword) {
        Some(fault) => Err(ReadRefusal::Frame(fault)),
        None => by_keyword(frame, state, item, keyword),
    }
}

/// How an item is to be taken into a document of which this is open.
///
/// # Errors
/// The first fault that the item has, in the order of `FrameReason`.
pub fn step_by<F: Frame>(
    frame: F,
    state: &Open<F::Section, F::Value>,
    item: &Item<'_>,
) -> Result<Step<F::Section, F::Kind>, ReadRefusal>
    requires { IsInside item.now }
    ensures { Leads (F.tables frame) state.now.taken (seen_item item.now) result (λ across. decisions.made_by (F.tables frame) across state.now (seen_item item.now)) }
{
    let keyword = keyword_of(item.keyword);
    match state.taken.as_slice() {
        [] => step_first(frame, item, keyword),
        [_, ..] => step_later(frame, state, item, keyword),
    }
}
