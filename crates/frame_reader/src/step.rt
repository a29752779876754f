// What an item is to be of a document, before it is read.
use frame_terms::Row;

/// What an item is to be of the section that is open: where it is taken, and by which row.
#[derive(Clone, Copy, Debug)]
pub enum Step<S, K> {
    /// Nothing: the document does not know the item.
    Passes,
    /// One more item of the section.
    Pushes(Row<K>),
    /// The first item of this section, before which the one that is open ends.
    Opens(S, Row<K>),
    /// The first item of this section, inside the one that is open.
    Enters(S, Row<K>),
    /// The last item of the section, and the one around it goes on.
    Leaves(Row<K>),
    /// The last item of the section and of the document.
    Ends(Row<K>),
    /// What stands behind the document.
    Stops,
}
