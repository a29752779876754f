// Where a reader of a document stands whose bytes may go on (dir-spec, "Document meta-format").

ghost use Rattle.std.specs.Prelude.{◌+◌, ◌<◌, ◌≡◌, ◌≤◌, ◌^◌, false, length, true, IsTrue};
ghost use Rattle.item_terms.specs.Steps.{Open};
ghost use Rattle.dirdoc_grammar.specs.{Cursors.{behind, fed_by, IsAt, IsOver, NoNl, Past}, Feeding.EndsNoEarlier};
ghost use Rattle.dirdoc_grammar.specs.{Feeding.{IfItem, IfNotYet, Takes}, declared.take.Take.TheVariants.NotYet};
ghost use Rattle.dirdoc_grammar.specs.{Reading.IsOf, Seen.{seen_item, LiesInOrder}};

use crate::bytes::{begins_dash, line_len};
use crate::front::{Found, Phase, Stop, between, next_item, whole_item};
use crate::line::MAX_LINE;
use crate::object::{MAX_OBJECT, object_line};
use crate::take::Take;

/// Where a reader stands in a document's bytes, which may go on. The bytes are kept by the caller, who
/// hands in all of them each time: those of before, and more behind them.
#[derive(Clone, Copy, Debug)]
pub struct Cursor {
    /// The place that the document may not reach.
    pub limit: u64,
    /// The place after the items that were taken.
    pub place: usize,
    /// How far the reading of the item behind that place has come.
    pub stop: Stop,
    /// Up to this place the line at the stop has no NL.
    pub scanned: usize,
}

/// The place of the first line of an object, from one of its lines on, that begins with `-`, has a fault or is
/// not whole. The object's BEGIN line stands at `begin`.
fn past_lines(bytes: &[u8], begin: usize, line: usize, limit: u64) -> usize
    requires within { line ≤ length bytes.now }
    requires short { length bytes.now < 2 ^ 62 }
    ensures past { Past limit begin bytes.now line result }
    ensures order { line ≤ result }
    ensures within { result ≤ length bytes.now }
{
    let mut line = line;
    if begin > line {
        return line;
    }
    'lines: while line < bytes.len() {
        match object_line(bytes, begin, line, limit) {
            Ok(text) => {
                if begins_dash(text) {
                    return line;
                }
                line += text.len() + 1;
            }
            Err(_) => return line,
        }
    }
    line
}

/// Whether the bytes end before the line at a place or within it, and no limit is passed, so that nothing
/// more is known of it. That it has no NL up to `scanned` is known.
fn is_quiet(bytes: &[u8], limit: u64, line: usize, phase: Phase, scanned: usize) -> bool
    requires order { line ≤ scanned }
    requires within { scanned ≤ length bytes.now }
    requires short { length bytes.now < 2 ^ 62 }
    requires no_nl { NoNl bytes.now line scanned }
    ensures quiet { IsTrue result → (open_ : Open) → IsOf phase open_ → IsOver limit line open_ bytes.now }
    ensures no_nl { IsTrue result → NoNl bytes.now line (length bytes.now) }
{
    let rest = &bytes[scanned..];
    if line_len(rest) < rest.len() {
        return false;
    }
    let size = (bytes.len() - line) as u64;
    if size > limit.saturating_sub(line as u64).min(MAX_LINE) {
        return false;
    }
    match phase {
        Phase::Between => true,
        Phase::Keyword => size == 0 || begins_dash(&bytes[line..]),
        Phase::Object(begin) => size
            <= MAX_OBJECT.saturating_sub(line.saturating_sub(begin) as u64),
    }
}

impl Cursor {
    /// At the first byte of a document that may have at most `limit` bytes.
    pub fn new(limit: u64) -> Cursor
        ensures { result ≡ behind limit 0 }
    {
        Cursor::behind(limit, 0)
    }

    /// Behind an item that ends at this place, in a document that may have at most `limit` bytes.
    pub fn behind(limit: u64, place: usize) -> Cursor
        ensures { result ≡ behind limit place }
    {
        Cursor {
            limit,
            place,
            stop: between(place),
            scanned: place,
        }
    }

    /// The same reader past those lines of an object that are whole.
    fn onward(self, bytes: &[u8]) -> Cursor
        requires at { IsAt bytes.now self }
        requires short { length bytes.now < 2 ^ 62 }
        ensures at { IsAt bytes.now result }
        ensures same { (result.limit ≡ self.limit) × (result.place ≡ self.place) }
    {
        match self.stop.phase {
            Phase::Object(begin) => {
                let line = past_lines(bytes, begin, self.stop.line, self.limit);
                if line == self.stop.line {
                    return self;
                }
                let stop = Stop { line, ..self.stop };
                Cursor {
                    stop,
                    scanned: line,
                    ..self
                }
            }
            _ => self,
        }
    }

    /// What comes next where no more bytes follow, and the reader behind it.
    fn take_last(self, bytes: &[u8]) -> (Take<'_>, Cursor)
        requires at { IsAt bytes.now self }
        requires short { length bytes.now < 2 ^ 62 }
        ensures takes { Takes (fed_by self bytes.now true) result.0 (fed_by result.1 bytes.now true) }
        ensures later { IfNotYet result.0 (EndsNoEarlier (length bytes.now) (fed_by result.1 bytes.now false)) }
        ensures at { IsAt bytes.now result.1 }
        ensures limit { result.1.limit ≡ self.limit }
        ensures order { IfItem result.0 (λ item. LiesInOrder (seen_item item)) }
    {
        match whole_item(bytes, self.stop.item, self.limit) {
            Ok(Some(item)) => (
                Take::Item(item),
                Cursor::behind(self.limit, item.after as usize),
            ),
            Ok(None) => (Take::End, self),
            Err(fault) => (Take::Fault(fault), self),
        }
    }

    /// Whether the new bytes of these end no line and pass no limit, so that what comes next is known no more than
    /// before. Then they are not looked through again.
    pub fn waits(&mut self, bytes: &[u8]) -> bool
        requires at { IsAt bytes.now self.old }
        requires short { length bytes.now < 2 ^ 62 }
        ensures takes { IsTrue result → Takes (fed_by self.old bytes.now false) NotYet (fed_by self.new bytes.now false) }
        ensures later { IsTrue result → EndsNoEarlier (length bytes.now) (fed_by self.new bytes.now false) }
        ensures at { IsAt bytes.now self.new }
        ensures limit { self.new.limit ≡ self.old.limit }
        ensures same { result ≡ false → self.new ≡ self.old }
    {
        let Stop { line, phase, .. } = self.stop;
        let quiet = is_quiet(bytes, self.limit, line, phase, self.scanned);
        if quiet {
            self.scanned = bytes.len();
        }
        quiet
    }

    /// What an item's reading from its first byte on says, where more bytes may follow, and the reader behind it.
    fn take_next(self, bytes: &[u8]) -> (Take<'_>, Cursor)
        requires at { IsAt bytes.now self }
        requires short { length bytes.now < 2 ^ 62 }
        ensures takes { Takes (fed_by self bytes.now false) result.0 (fed_by result.1 bytes.now false) }
        ensures later { IfNotYet result.0 (EndsNoEarlier (length bytes.now) (fed_by result.1 bytes.now false)) }
        ensures at { IsAt bytes.now result.1 }
        ensures limit { result.1.limit ≡ self.limit }
        ensures order { IfItem result.0 (λ item. LiesInOrder (seen_item item)) }
    {
        match next_item(bytes, self.stop.item, self.limit) {
            Found::Whole(item) => (
                Take::Item(item),
                Cursor::behind(self.limit, item.after as usize),
            ),
            Found::Fault(fault) => (Take::Fault(fault), self),
            Found::Open(stop, _) => {
                let scanned = bytes.len();
                (
                    Take::NotYet,
                    Cursor {
                        stop,
                        scanned,
                        ..self
                    },
                )
            }
        }
    }

    /// The same, where that is not known yet is told without a reading.
    fn take_quietly(mut self, bytes: &[u8]) -> (Take<'_>, Cursor)
        requires at { IsAt bytes.now self }
        requires short { length bytes.now < 2 ^ 62 }
        ensures takes { Takes (fed_by self bytes.now false) result.0 (fed_by result.1 bytes.now false) }
        ensures later { IfNotYet result.0 (EndsNoEarlier (length bytes.now) (fed_by result.1 bytes.now false)) }
        ensures at { IsAt bytes.now result.1 }
        ensures limit { result.1.limit ≡ self.limit }
        ensures order { IfItem result.0 (λ item. LiesInOrder (seen_item item)) }
    {
        if self.waits(bytes) {
            return (Take::NotYet, self);
        }
        self.take_next(bytes)
    }

    /// What comes next where more bytes may follow and a line was ended or a limit passed, and the reader behind it.
    fn take_more(self, bytes: &[u8]) -> (Take<'_>, Cursor)
        requires at { IsAt bytes.now self }
        requires short { length bytes.now < 2 ^ 62 }
        ensures takes { Takes (fed_by self bytes.now false) result.0 (fed_by result.1 bytes.now false) }
        ensures later { IfNotYet result.0 (EndsNoEarlier (length bytes.now) (fed_by result.1 bytes.now false)) }
        ensures at { IsAt bytes.now result.1 }
        ensures limit { result.1.limit ≡ self.limit }
        ensures order { IfItem result.0 (λ item. LiesInOrder (seen_item item)) }
    {
        match self.stop.phase {
            Phase::Object(_) => self.onward(bytes).take_quietly(bytes),
            _ => self.take_next(bytes),
        }
    }

    /// Takes the next item of these bytes, if it is known whatever follows them; where `finished`, nothing does.
    pub fn take<'a>(&mut self, bytes: &'a [u8], finished: bool) -> Take<'a>
        requires at { IsAt bytes.now self.old }
        requires short { length bytes.now < 2 ^ 62 }
        ensures takes { Takes (fed_by self.old bytes.now finished) result (fed_by self.new bytes.now finished) }
        ensures later { IfNotYet result (EndsNoEarlier (length bytes.now) (fed_by self.new bytes.now false)) }
        ensures at { IsAt bytes.now self.new }
        ensures limit { self.new.limit ≡ self.old.limit }
        ensures order { IfItem result (λ item. LiesInOrder (seen_item item)) }
    {
        if finished {
            let (taken, cursor) = self.take_last(bytes);
            *self = cursor;
            return taken;
        }
        if self.waits(bytes) {
            return Take::NotYet;
        }
        let (taken, cursor) = self.take_more(bytes);
        *self = cursor;
        taken
    }
}
