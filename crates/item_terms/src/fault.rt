// The faults that the bytes of a document may have before any keyword is looked at.

/// What is wrong with a line or an object.
///
/// Of several that apply to a line, the limits come first, each as soon as so many bytes were
/// seen: of those that are reached at one byte, the document's, then the object's, then the
/// line's. A BEGIN line alone is asked for the object's limit only when it has ended without a
/// fault of its own. The others follow in the order `Unterminated`, `Nul`, and then what the line should
/// have been.
#[derive(Clone, Copy, Debug, PartialEq, Eq)]
pub enum DocReason {
    /// A line outside an object is neither blank nor a keyword line. The place is the line's
    /// first byte.
    Keyword,
    /// A line has a NUL. The place is that of the first one.
    Nul,
    /// The input ends inside a line, or inside an object. The place is the input's length.
    Unterminated,
    /// The line after a keyword line begins with `-` and does not begin an object, since it is
    /// not `-----BEGIN`, words and `-----`. The place is the line's first byte.
    ObjectWords,
    /// The lines of an object are not strict base64, or one of them is empty or longer than 64
    /// bytes. The place is the first byte of the object's BEGIN line.
    ObjectBase64,
    /// A line inside an object begins with `-` and is not the END line with the same words. The
    /// place is the line's first byte.
    ObjectEnd,
    /// A line has more than 1,048,576 bytes with its NL. The place is the first byte that is too
    /// many.
    LineTooLong,
    /// The document has more bytes than its reader allows. The place is the first byte that is
    /// too many.
    DocumentTooLong,
    /// An object has more than 65,536 bytes, from its BEGIN line through its END line. The place
    /// is the first byte of the BEGIN line.
    ObjectTooLong,
}

/// A fault of a line or an object, with its place.
#[derive(Clone, Copy, Debug, PartialEq, Eq)]
pub struct DocFault {
    /// The place in bytes, counted from the input's first byte.
    pub place: u64,
    /// What is wrong there.
    pub reason: DocReason,
}
