// What is known of a document while its bytes arrive.

ghost use Rattle.frame_terms.specs.Tables.{Tables};
ghost use Rattle.document_laws.specs.Known.{AllIsOpen};

/// A law: where all that has come of a document is read, and it is neither whole nor refused, nothing of it was held
/// back: it depends on the bytes that are still to come.
pub fn all_is_open<S, K, V, X, F>()
    ensures { (tables : Tables S K V X) → AllIsOpen F tables }
{}
