// The reader of a document's items.

ghost use Rattle.std.specs.Prelude.{◌≤◌, ◌<◌, ◌≡◌, ◌^◌, drop, length, IfOk, IfSome};
ghost use Rattle.item_terms.specs.Items.{contents, items_of, items_from, nothing, Contents};
ghost use Rattle.dirdoc_grammar.specs.Seen.{seen_item, Gives, LiesInOrder};

use crate::front::whole_item;
use crate::item::Item;
use item_terms::DocFault;
use std::marker::Model;

/// The items of a document, one after the other, up to its first fault. A contract sees a reader
/// as what it has left: the items, and the fault after them if there is one.
#[derive(Drop)]
pub struct Items<'a> {
    bytes: &'a [u8],
    place: usize,
    limit: u64,
}

impl<'a> Model for Items<'a> {
    ghost Value = { Contents };

    ghost view = { λ s. contents s.limit s.place nothing (drop s.place s.bytes.now) };

    ghost invariant = { λ s. (s.place ≤ length s.bytes.now) × (length s.bytes.now < 2 ^ 62) };
}

impl<'a> Items<'a> {
    /// The items of a document that may have at most `limit` bytes.
    pub fn new(bytes: &'a [u8], limit: u64) -> Items<'a>
        requires { length bytes.now < 2 ^ 62 }
        ensures { result ≡ items_of limit bytes.now }
    {
        Items {
            bytes,
            place: 0,
            limit,
        }
    }

    /// The items of the document that begins at the byte `start` of an input and may have at most
    /// `limit` bytes from there on. Places still count from the input's first byte.
    pub fn starting_at(bytes: &'a [u8], start: u64, limit: u64) -> Items<'a>
        requires within { start ≤ length bytes.now }
        requires short { length bytes.now < 2 ^ 62 }
        requires small { limit < 2 ^ 62 }
        ensures { result ≡ items_from start limit bytes.now }
    {
        Items {
            bytes,
            place: start as usize,
            limit: start + limit,
        }
    }

    /// The next item, or None after the last one, and from then on.
    ///
    /// # Errors
    /// The first fault of the document, once its line or its object is reached, and from then on.
    pub fn next(&mut self) -> Result<Option<Item<'a>>, DocFault>
        ensures given { Gives self.old result self.new }
        ensures inside { IfOk result (λ item. IfSome item (λ i. LiesInOrder (seen_item i) × (i.after < 2 ^ 62))) }
    {
        match whole_item(self.bytes, self.place, self.limit) {
            Ok(Some(item)) => {
                self.place = item.after as usize;
                Ok(Some(item))
            }
            Ok(None) => Ok(None),
            Err(fault) => Err(fault),
        }
    }
}
