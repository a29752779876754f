// What holds of the bytes of a document, whatever its tables.
ghost use Rattle.frame_terms.specs.Tables.{Tables};
ghost use Rattle.grammar_laws.specs.Parts.{OwnPartIsReadTheSame};

/// A law: where documents end with their last item's object, the bytes of one up to its end are read alone as the same
/// document.
pub fn own_part_is_read_the_same<S, K, V, X>()
    ensures { (tables : Tables S K V X) → OwnPartIsReadTheSame tables }
{}
