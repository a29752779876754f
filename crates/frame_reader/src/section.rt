// The items of a section and the rows of its table.
ghost use Rattle.std.specs.Prelude.{◌≡◌};
ghost use Rattle.dirdoc_grammar.specs.Seen.{seen_item, IsInside};
ghost use Rattle.frame_terms.specs.Refusals as refusals;
ghost use Rattle.frame_terms.specs.Sections as sections;
ghost use Rattle.frame_reader.specs.Giving.{Tells};

use crate::frame::Frame;
use dirdoc_grammar::Item;
use frame_terms::{Count, FrameFault, FrameReason, Keyword, ReadRefusal, Row, Taken};

/// The refusal at a place.
pub fn refused(place: u64, reason: FrameReason) -> ReadRefusal
    ensures { result ≡ refusals.refusal_at place reason }
{
    ReadRefusal::Frame(FrameFault { place, reason })
}

/// The row of a keyword.
pub fn row_of<K: Copy>(rows: &[Row<K>], keyword: Keyword) -> Option<Row<K>>
    ensures { result ≡ sections.row_of rows.now keyword }
{
    rows.iter().copied().find(|row| row.keyword.same(keyword))
}

/// Whether an item of this keyword is among those taken.
pub fn stands<V>(keyword: Keyword, taken: &[Taken<V>]) -> bool
    ensures { result ≡ sections.stands keyword taken.now }
{
    taken.iter().any(|one| one.keyword.same(keyword))
}

/// The keyword of the first row that lacks its item.
pub fn lacking<K, V>(rows: &[Row<K>], taken: &[Taken<V>]) -> Option<Keyword>
    ensures { result ≡ sections.lacking_keyword rows.now taken.now }
{
    rows.iter()
        .find(|row| row.count == Count::One && !stands(row.keyword, taken))
        .map(|row| row.keyword)
}

/// The same of the rows but the last one.
pub fn lacking_but<K, V>(rows: &[Row<K>], last: Keyword, taken: &[Taken<V>]) -> Option<Keyword>
    ensures { result ≡ sections.lacking_but rows.now last taken.now }
{
    rows.iter()
        .find(|row| row.count == Count::One
            && !row.keyword.same(last)
            && !stands(row.keyword, taken))
        .map(|row| row.keyword)
}

/// An item that says this, with its places.
fn taken_of<V>(keyword: Keyword, item: &Item<'_>, value: V) -> Taken<V>
    requires { IsInside item.now }
    ensures { result ≡ sections.taken_of keyword (seen_item item.now) value }
{
    Taken {
        keyword,
        value,
        place: item.place,
        separator: item.place + item.keyword.len() as u64,
        line_end: item.line_end,
        after: item.after,
    }
}

/// An item of this row after those that are taken.
pub fn accept<F: Frame>(
    frame: F,
    across: &F::Across,
    row: Row<F::Kind>,
    taken: &[Taken<F::Value>],
    item: &Item<'_>,
) -> Result<Taken<F::Value>, ReadRefusal>
    requires { IsInside item.now }
    ensures { Tells (sections.accept (F.tables frame) across.now row taken.now (seen_item item.now)) result }
{
    if row.count != Count::Many && stands(row.keyword, taken) {
        return Err(refused(item.place, FrameReason::Twice(row.keyword)));
    }
    let value = frame.value(across, row.kind, item)?;
    Ok(taken_of(row.keyword, item, value))
}
