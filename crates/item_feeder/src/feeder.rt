// A document whose bytes arrive piece by piece (dir-spec, "Document meta-format").

ghost use Rattle.std.specs.Prelude.{◌+◌, ◌-◌, ◌<◌, ◌≡◌, ◌≤◌, ◌^◌, ◌++◌, [], drop, length, min, option_to_list, take};
ghost use Rattle.std.specs.Prelude.{vec_len, false, true, Bool, None, Some, IfOk, OnErr, OnOk};
ghost use Rattle.dirdoc_grammar.specs.{Cursors.IsAt, Feeding.{Fed, IfItem}, Seen.{seen_item, seen_object, LiesInOrder}};
ghost use Rattle.item_feeder.specs.Feeders.{behind_place, fed_with, IfFault, Keeps, KeepsWithin, Moves, Shows};
ghost use Rattle.item_feeder.specs.Moving.{moved_item, moved_fault, moved_object};

use dirdoc_grammar::{Cursor, DocFault, DocReason, Item, ObjectText, Take};
use std::alloc::{AllocError, Global};
use std::marker::Model;

/// The items of a document whose bytes arrive piece by piece, up to its first fault. A contract
/// sees a reader as the bytes that were fed and not taken, as far as the document may have them and
/// one more. It keeps no byte in its buffer that the document may not have: of those that were fed, only the first is
/// kept, beside the buffer, since it tells whether an object follows the last keyword line.
#[derive(Drop)]
pub struct Feeder {
    bytes: Vec<u8>,
    beside: Option<u8>,
    base: u64,
    cursor: Cursor,
    waits: bool,
    finished: bool,
}

impl Model for Feeder {
    ghost Value = { Fed };

    ghost view = { λ s. record {
      limit = s.base + s.cursor.limit;
      place = s.base + s.cursor.place;
      rest = drop s.cursor.place s.bytes.items ++ option_to_list s.beside;
      finished = s.finished;
    } };

    ghost invariant = { λ s. Keeps s.bytes.items s.beside s.base s.cursor s.waits s.finished };
}

/// Takes so many bytes off the front.
fn take_off(bytes: &mut Vec<u8>, taken: usize)
    requires { taken ≤ vec_len bytes.old }
    ensures { bytes.new.items ≡ drop taken bytes.old.items }
{
    let rest = bytes.len() - taken;
    bytes.copy_within(taken..taken + rest, 0);
    bytes.truncate(rest);
}

/// An object so many places later.
fn object_at(base: u64, object: ObjectText<'_>) -> ObjectText<'_>
    requires { base + object.start < 2 ^ 63 }
    ensures { seen_object result ≡ moved_object base (seen_object object.entry) }
{
    ObjectText {
        words: object.words,
        start: base + object.start,
        lines: object.lines,
    }
}

/// An item so many places later: that of a document whose first byte stands behind so many others.
pub fn item_at(base: u64, item: Item<'_>) -> Item<'_>
    requires order { LiesInOrder (seen_item item) }
    requires fits { base + item.after < 2 ^ 63 }
    ensures { seen_item result ≡ moved_item base (seen_item item.entry) }
{
    let object = match item.object {
        Some(object) => Some(object_at(base, object)),
        None => None,
    };
    Item {
        start: base + item.start,
        line_end: base + item.line_end,
        object,
        place: base + item.place,
        after: base + item.after,
        ..item
    }
}

/// What is given so many places later.
fn take_at(base: u64, taken: Take<'_>) -> Take<'_>
    requires order { IfItem taken (λ item. LiesInOrder (seen_item item) × (base + item.after < 2 ^ 63)) }
    requires fault { IfFault taken (λ fault. base + fault.place < 2 ^ 63) }
    ensures { Moves base taken.entry result }
{
    match taken {
        Take::Item(item) => Take::Item(item_at(base, item)),
        Take::Fault(fault) => Take::Fault(DocFault {
            place: base + fault.place,
            reason: fault.reason,
        }),
        Take::NotYet => Take::NotYet,
        Take::End => Take::End,
    }
}

/// What of a piece a document may have that has room for so many bytes, and the byte behind, if one is there.
fn split_at_room(piece: &[u8], room: usize) -> (&[u8], Option<u8>)
    ensures fits { result.0.now ≡ take room piece.now }
    ensures beside { option_to_list result.1 ≡ take 1 (drop room piece.now) }
{
    if piece.len() <= room {
        return (piece, None);
    }
    let (fits, behind) = piece.split_at(room);
    (fits, behind.first().copied())
}

/// What comes next of bytes that are as many as the document may have, where one more follows them: what the bytes
/// hold, but an item whose keyword line ends them may have an object then.
fn last_within(mut cursor: Cursor, bytes: &[u8], beside: u8) -> Take<'_>
    requires at { IsAt bytes.now cursor }
    requires full { length bytes.now ≡ cursor.limit }
    requires short { length bytes.now < 2 ^ 62 }
    ensures shows { (finished : Bool) → Shows (fed_with cursor bytes.now (Some beside) finished) result }
    ensures order { IfItem result (λ item. LiesInOrder (seen_item item)) }
    ensures within { IfItem result (λ item. item.after ≤ cursor.limit) }
{
    let limit = cursor.limit;
    let too_long = Take::Fault(DocFault {
        place: limit,
        reason: DocReason::DocumentTooLong,
    });
    match cursor.take(bytes, true) {
        Take::Item(item) => {
            if beside == b'-' && item.line_end == limit {
                return too_long;
            }
            Take::Item(item)
        }
        Take::Fault(fault) => {
            if let DocReason::Unterminated = fault.reason {
                return too_long;
            }
            Take::Fault(fault)
        }
        _ => too_long,
    }
}

/// What comes next of bytes and the one beside them, if it is known.
fn next_of(mut cursor: Cursor, bytes: &[u8], beside: Option<u8>, finished: bool) -> Take<'_>
    requires at { IsAt bytes.now cursor }
    requires within { KeepsWithin cursor.limit bytes.now beside }
    requires short { length bytes.now < 2 ^ 62 }
    ensures shows { Shows (fed_with cursor bytes.now beside finished) result }
    ensures order { IfItem result (λ item. LiesInOrder (seen_item item)) }
    ensures within { IfItem result (λ item. item.after ≤ cursor.limit) }
{
    match beside {
        Some(byte) => last_within(cursor, bytes, byte),
        None => cursor.take(bytes, finished),
    }
}

impl Feeder {
    /// The reader of a document that may have at most `limit` bytes.
    pub fn new(alloc: Global, limit: u64) -> Feeder
        requires { limit < 2 ^ 61 }
        ensures { result ≡ record { limit = limit; place = 0; rest = []; finished = false } }
    {
        Feeder {
            bytes: Vec::new(alloc),
            beside: None,
            base: 0,
            cursor: Cursor::new(limit),
            waits: false,
            finished: false,
        }
    }

    /// Moves what was not taken to the front.
    fn compact(&mut self)
        ensures { self.new ≡ self.old }
    {
        let taken = self.cursor.place;
        if taken > 0 && taken as u64 <= self.cursor.limit {
            take_off(&mut self.bytes, taken);
            self.base += taken as u64;
            self.cursor = Cursor::new(self.cursor.limit - taken as u64);
            self.waits = false;
        }
    }

    /// Keeps how far the bytes were looked through, and whether nothing is known of what comes next.
    fn remember(&mut self)
        requires { self.old.finished ≡ false }
        ensures { self.new ≡ self.old }
    {
        if self.beside.is_some() {
            self.waits = false;
            return;
        }
        let mut cursor = self.cursor;
        if cursor.waits(&self.bytes) {
            self.cursor = cursor;
            self.waits = true;
            return;
        }
        if let Take::NotYet = cursor.take(&self.bytes, false) {
            self.cursor = cursor;
            self.waits = true;
            return;
        }
        self.waits = false;
    }

    /// Feeds the next piece. Of what the document may not have, one byte is kept, beside the others; of what was taken, nothing. What was
    /// not taken is moved to the front then: where all that is known is taken between two pieces, that is no
    /// more than the last of them.
    ///
    /// # Errors
    /// There was no memory.
    pub fn feed(&mut self, piece: &[u8]) -> Result<(), AllocError>
        requires { self.old.finished ≡ false }
        ensures ok { OnOk result (self.new ≡ record self.old { rest = take (self.old.limit + 1 - self.old.place) (self.old.rest ++ piece.now) }) }
        ensures err { OnErr result (self.new ≡ self.old) }
    {
        self.compact();
        if self.beside.is_some() {
            return Ok(());
        }
        let room = (self.cursor.limit - self.bytes.len() as u64) as usize;
        let (fits, beside) = split_at_room(piece, room);
        self.waits = false;
        self.bytes.extend_from_slice(fits)?;
        self.beside = beside;
        self.remember();
        Ok(())
    }

    /// No more bytes follow.
    pub fn finish(&mut self)
        ensures { self.new ≡ record self.old { finished = true } }
    {
        self.finished = true;
        self.waits = false;
    }

    /// What comes next, if it is known. Places count from the document's first byte.
    pub fn look(&self) -> Take<'_>
        ensures shows { Shows self.now result }
        ensures within { IfItem result (λ item. item.after ≤ self.now.limit) }
    {
        if self.waits {
            return Take::NotYet;
        }
        take_at(
            self.base,
            next_of(self.cursor, &self.bytes, self.beside, self.finished),
        )
    }

    /// Takes what was looked at, up to this place.
    pub fn pass(&mut self, after: u64)
        requires later { self.old.place ≤ after }
        requires inside { after ≤ self.old.place + length self.old.rest }
        requires within { after ≤ self.old.limit }
        ensures { self.new ≡ behind_place self.old after }
    {
        self.cursor = Cursor::behind(self.cursor.limit, (after - self.base) as usize);
        self.waits = false;
    }

    /// How many bytes the buffer keeps: never more than the document may have.
    pub fn held(&self) -> usize
        ensures within { result ≤ self.now.limit }
        ensures rest { min (length self.now.rest) (self.now.limit - self.now.place) ≤ result }
    {
        self.bytes.len()
    }
}
