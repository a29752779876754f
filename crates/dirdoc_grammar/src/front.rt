// How far the reading of an item has come, where the bytes may go on.

ghost use Rattle.std.specs.Prelude.{◌≤◌, ◌<◌, ◌^◌, ◌≡◌, length, IfOk, IfSome};
ghost use Rattle.dirdoc_grammar.specs.Reading.{all_of, last_of, Finds, IfWhole, LastOf};
ghost use Rattle.dirdoc_grammar.specs.{declared.front.Phase.TheVariants.Between, Seen.{seen_item, LiesInOrder}};

use crate::item::Item;
use crate::line::{at, line_at};
use crate::object::with_object;
use item_terms::{DocFault, DocReason};

/// What the next line may continue.
#[derive(Clone, Copy, Debug)]
pub enum Phase {
    /// Nothing: it stands between items.
    Between,
    /// The keyword line before it.
    Keyword,
    /// The object whose BEGIN line stands at this place.
    Object(usize),
}

/// Where the reading of an item stops when the bytes end before it is whole.
#[derive(Clone, Copy, Debug)]
pub struct Stop {
    /// The place of its keyword line, or of the next line between items.
    pub item: usize,
    /// The place of the first line that was not read.
    pub line: usize,
    /// What that line may continue.
    pub phase: Phase,
}

/// What is found from a place on.
#[derive(Clone, Copy, Debug)]
pub(crate) enum Found<'a> {
    /// The next item, whatever follows the bytes.
    Whole(Item<'a>),
    /// The first fault, whatever follows the bytes.
    Fault(DocFault),
    /// The bytes end before either is known. Where they end with a keyword line, its item is there.
    Open(Stop, Option<Item<'a>>),
}

/// The next item from a place between items on, however the bytes may go on.
pub(crate) fn next_item<'a>(bytes: &'a [u8], place: usize, limit: u64) -> Found<'a>
    requires within { place ≤ length bytes.now }
    requires short { length bytes.now < 2 ^ 62 }
    ensures found { Finds limit place bytes.now result }
    ensures order { IfWhole result (λ whole. LiesInOrder (seen_item whole)) }
{
    let mut line = place;
    'lines: while line < bytes.len() {
        match line_at(bytes, line, limit) {
            Ok((None, after)) => line = after,
            Ok((Some(item), _)) => {
                return match with_object(bytes, item, limit) {
                    Found::Open(stop, last) => Found::Open(Stop { item: line, ..stop }, last),
                    found => found,
                };
            }
            Err(fault) => {
                return match fault.reason {
                    DocReason::Unterminated => Found::Open(between(line), None),
                    _ => Found::Fault(fault),
                };
            }
        }
    }
    Found::Open(between(line), None)
}

/// The reading stops before a line between items.
pub(crate) fn between(line: usize) -> Stop
    ensures { result ≡ record { item = line; line = line; phase = Between } }
{
    Stop {
        item: line,
        line,
        phase: Phase::Between,
    }
}

/// What is left where no more bytes follow: the item of a keyword line, or nothing.
///
/// # Errors
/// The bytes end within a line or an object.
fn last_of<'a>(
    length: u64,
    stop: Stop,
    last: Option<Item<'a>>,
) -> Result<Option<Item<'a>>, DocFault>
    ensures { result ≡ last_of length stop last.entry }
{
    match last {
        Some(item) => Ok(Some(item)),
        None => match stop.phase {
            Phase::Between if stop.line as u64 == length => Ok(None),
            _ => Err(at(length, DocReason::Unterminated)),
        },
    }
}

/// What is found in bytes of this length where no more follow.
///
/// # Errors
/// The fault that was found, or that the bytes end within a line or an object.
fn all_of<'a>(length: u64, found: Found<'a>) -> Result<Option<Item<'a>>, DocFault>
    ensures value { result ≡ all_of length found.entry }
    ensures order { IfWhole found.entry (λ whole. LiesInOrder (seen_item whole)) → IfOk result (λ item. IfSome item (λ i. LiesInOrder (seen_item i))) }
{
    match found {
        Found::Whole(item) => Ok(Some(item)),
        Found::Fault(fault) => Err(fault),
        Found::Open(stop, last) => last_of(length, stop, last),
    }
}

/// The next item from a place between items on, where no more bytes follow; None after the last.
///
/// # Errors
/// The first fault.
pub(crate) fn whole_item(
    bytes: &[u8],
    place: usize,
    limit: u64,
) -> Result<Option<Item<'_>>, DocFault>
    requires within { place ≤ length bytes.now }
    requires short { length bytes.now < 2 ^ 62 }
    ensures item { LastOf limit place bytes.now result }
    ensures order { IfOk result (λ item. IfSome item (λ i. LiesInOrder (seen_item i))) }
{
    all_of(bytes.len() as u64, next_item(bytes, place, limit))
}
