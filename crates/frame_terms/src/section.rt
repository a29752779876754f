// What is fixed of a section beside its items.
use crate::keyword::Keyword;
use crate::row::Limit;

/// What one more item of a section's opener begins.
#[derive(Clone, Copy, Debug, PartialEq, Eq)]
pub enum Again {
    /// Nothing: it is an item that stands twice.
    Nothing,
    /// The next section of this name. There may be any number of them, and none.
    Section,
    /// The next document.
    Document,
}

/// How a section begins and ends, and what may stand inside it.
#[derive(Clone, Copy, Debug)]
pub struct Shape<S> {
    /// The keyword of its first item.
    pub opener: Keyword,
    /// The keyword of its last item, where one ends it.
    pub last: Option<Keyword>,
    /// What one more item of its opener begins.
    pub again: Again,
    /// The section that may stand inside it, from that section's opener on.
    pub inner: Option<S>,
    /// How many bytes it may have, where it stands inside another and that is limited.
    pub limit: Option<Limit>,
}
