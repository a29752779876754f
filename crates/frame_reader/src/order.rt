// Where a keyword belongs.
ghost use Rattle.std.specs.Prelude.{◌≡◌, ◌≤◌, length};
ghost use Rattle.frame_terms.specs.Order as order;

use crate::frame::Frame;
use frame_terms::{Again, Keyword};

/// Whether this is the keyword, where there is one.
pub fn is_keyword(one: Option<Keyword>, keyword: Keyword) -> bool
    ensures { result ≡ order.is_keyword one keyword }
{
    match one {
        Some(other) => other.same(keyword),
        None => false,
    }
}

/// Whether a section may stand any number of times, and not at all.
fn repeats(again: Again) -> bool
    ensures { result ≡ order.repeats again }
{
    matches!(again, Again::Section)
}

/// The first of two keywords that is there.
pub fn first_of(first: Option<Keyword>, second: Option<Keyword>) -> Option<Keyword>
    ensures { result ≡ order.first_of first second }
{
    match first {
        Some(keyword) => Some(keyword),
        None => second,
    }
}

/// The keyword of a section's first item.
pub fn opener<F: Frame>(frame: F, section: F::Section) -> Keyword
    ensures { result ≡ order.opener (F.tables frame) section }
{
    frame.shape(section).opener
}

fn knows_in<F: Frame>(frame: F, section: F::Section, keyword: Keyword) -> bool
    ensures { result ≡ order.knows_in (F.tables frame) section keyword }
{
    frame
        .rows(section)
        .iter()
        .any(|row| row.keyword.same(keyword))
}

fn knows_inside<F: Frame>(frame: F, inner: Option<F::Section>, keyword: Keyword) -> bool
    ensures { result ≡ order.knows_inside (F.tables frame) inner keyword }
{
    match inner {
        Some(inner) => knows_in(frame, inner, keyword),
        None => false,
    }
}

fn knows_with<F: Frame>(frame: F, section: F::Section, keyword: Keyword) -> bool
    ensures { result ≡ order.knows_with (F.tables frame) section keyword }
{
    knows_in(frame, section, keyword) || knows_inside(frame, frame.shape(section).inner, keyword)
}

/// Whether a document knows a keyword in some section.
fn knows<F: Frame>(frame: F, keyword: Keyword) -> bool
    ensures { result ≡ order.knows (F.tables frame) keyword }
{
    frame
        .sections()
        .iter()
        .any(|section| knows_with(frame, *section, keyword))
}

/// Whether a keyword that has no row in a section may not stand in it.
pub fn is_strange<F: Frame>(frame: F, section: F::Section, keyword: Keyword) -> bool
    ensures { result ≡ order.is_strange (F.tables frame) section keyword }
{
    knows(frame, keyword) || frame.strangers(section, keyword)
}

fn place_of<F: Frame>(frame: F, section: F::Section, list: &[F::Section]) -> usize
    ensures place { result ≡ order.place_of (F.tables frame) section list.now }
    ensures within { result ≤ length list.now }
{
    list.iter()
        .take_while(|other| !opener(frame, **other).same(opener(frame, section)))
        .count()
}

fn after<F: Frame>(
    frame: F,
    section: F::Section,
    list: &'static [F::Section],
) -> &'static [F::Section]
    ensures { result.now ≡ order.after (F.tables frame) section list.now }
{
    let place = place_of(frame, section, list);
    if place < list.len() {
        &list[place + 1..]
    } else {
        &[]
    }
}

/// The sections of a document that may follow one of them.
pub fn following<F: Frame>(frame: F, section: F::Section) -> &'static [F::Section]
    ensures { result.now ≡ order.following_sections (F.tables frame) section }
{
    after(frame, section, frame.sections())
}

/// The first section of a list that the keyword opens.
pub fn opened_by<F: Frame>(frame: F, keyword: Keyword, list: &[F::Section]) -> Option<F::Section>
    ensures { result ≡ order.opened_by (F.tables frame) keyword list.now }
{
    list.iter()
        .copied()
        .find(|section| opener(frame, *section).same(keyword))
}

/// The opener of the first section of a list that has to stand.
pub fn must_open<F: Frame>(frame: F, list: &[F::Section]) -> Option<Keyword>
    ensures { result ≡ order.must_open (F.tables frame) list.now }
{
    for section in list {
        let shape = frame.shape(*section);
        if !repeats(shape.again) {
            return Some(shape.opener);
        }
    }
    None
}

/// The opener of the first section before the one that a keyword opens which has to stand.
pub fn passed_over<F: Frame>(frame: F, keyword: Keyword, list: &[F::Section]) -> Option<Keyword>
    ensures { result ≡ order.passed_over (F.tables frame) keyword list.now }
{
    for section in list {
        let shape = frame.shape(*section);
        if shape.opener.same(keyword) {
            return None;
        }
        if !repeats(shape.again) {
            return Some(shape.opener);
        }
    }
    None
}

fn section_if<F: Frame>(
    frame: F,
    keyword: Keyword,
    section: Option<F::Section>,
) -> Option<F::Section>
    ensures { result ≡ order.section_if (F.tables frame) keyword section }
{
    match section {
        Some(section) => {
            if opener(frame, section).same(keyword) {
                Some(section)
            } else {
                None
            }
        }
        None => None,
    }
}

/// The section that an item of this keyword opens inside another.
pub fn inner<F: Frame>(frame: F, section: F::Section, keyword: Keyword) -> Option<F::Section>
    ensures { result ≡ order.inner (F.tables frame) section keyword }
{
    section_if(frame, keyword, frame.shape(section).inner)
}

/// Whether a keyword is that of the first item of a document.
pub fn begins_document<F: Frame>(frame: F, keyword: Option<Keyword>) -> bool
    ensures { result ≡ order.begins_document (F.tables frame) keyword }
{
    match keyword {
        Some(keyword) => keyword.same(opener(frame, frame.first())),
        None => false,
    }
}
