// What is known of a document while it is read. S and V are its sections, and what its items say.
use crate::keyword::Keyword;
use dir_bytes::Seq;

/// An item that was taken into a section. Places are counted from the input's first byte.
#[derive(Clone, Copy, Debug)]
pub struct Taken<V> {
    /// Its keyword.
    pub keyword: Keyword,
    /// What it says.
    pub value: V,
    /// The place of its first byte.
    pub place: u64,
    /// The place after its keyword.
    pub separator: u64,
    /// The place after its keyword line.
    pub line_end: u64,
    /// The place after its last line.
    pub after: u64,
}

/// A section with its items.
#[derive(Debug, Drop)]
pub struct Group<S, V> {
    /// Which section it is.
    pub section: S,
    /// Its items, in order.
    pub taken: Seq<Taken<V>>,
}

/// The section that is open.
#[derive(Debug, Drop)]
pub struct Open<S, V> {
    /// Which section it is.
    pub section: S,
    /// Its items so far, in order.
    pub taken: Seq<Taken<V>>,
    /// The section around it, where it stands inside another.
    pub around: Option<Group<S, V>>,
}

/// What an item makes of the section that is open.
#[derive(Clone, Copy, Debug)]
pub enum Made<S, V> {
    /// Nothing: the document does not know the item.
    Passes,
    /// One more item of the section.
    Pushes(Taken<V>),
    /// The section ends before it, and this one begins with it.
    Opens(S, Taken<V>),
    /// This section begins with it, inside the one that is open.
    Enters(S, Taken<V>),
    /// The section ends with it, and the one around it goes on.
    Leaves(Taken<V>),
    /// The section ends with it, and the document too.
    Ends(Taken<V>),
    /// The section ends before it, and the document too.
    Stops,
}
