// Which items are read as which document, whatever its tables.
ghost use Rattle.frame_terms.specs.Tables.{Tables};
ghost use Rattle.document_laws.specs.Documents.{DocumentsAreAll, DocumentsAreRead};

/// A law: items that are the sections of a document, one behind the other in the order of its table, each with its items,
/// are read as that document, where its tables are clear.
pub fn documents_are_read<S, K, V, X>()
    ensures { (tables : Tables S K V X) → DocumentsAreRead tables }
{}

/// A law, the other way round: no other items are read as a document, where its tables are clear.
pub fn documents_are_all<S, K, V, X>()
    ensures { (tables : Tables S K V X) → DocumentsAreAll tables }
{}
