// What holds of the tables of each of these kinds of documents.
ghost use Rattle.descriptor_parts.specs.Kinds.{KindsAreClear, KindsAreExact, KindsHaveNoDoc};

/// A law: the tables of consensuses of either flavour, server descriptors, microdescriptors and detached signatures are
/// clear, and so sound.
pub fn kinds_are_clear()
    ensures { KindsAreClear }
{}

/// A law: items are read as a document of one of these kinds exactly where they are its sections.
pub fn kinds_are_exact()
    ensures { KindsAreExact }
{}

/// A law: the tables of each of these kinds refuse no item as a line or an object is refused that has a fault. So of
/// each that is read while its bytes arrive nothing is held back (`document_laws`).
pub fn kinds_have_no_doc()
    ensures { KindsHaveNoDoc }
{}
