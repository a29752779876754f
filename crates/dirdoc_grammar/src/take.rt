// What a reader gives whose bytes may go on.

use crate::item::Item;
use item_terms::DocFault;

/// What a reader gives whose bytes arrive piece by piece.
#[derive(Clone, Copy, Debug)]
pub enum Take<'a> {
    /// The next item.
    Item(Item<'a>),
    /// The bytes hold no whole item and no fault, and more may follow.
    NotYet,
    /// The input is finished, and all its items were taken.
    End,
    /// The first fault of the document, and from then on.
    Fault(DocFault),
}
