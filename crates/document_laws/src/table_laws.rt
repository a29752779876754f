// What holds of every document that was read, whatever its tables.
ghost use Rattle.frame_terms.specs.Tables.{Tables};
ghost use Rattle.document_laws.specs.{Counts.RowsStandAsOften, Items.ItemsAreSaid, Order.SectionsStandInOrder};

/// A law: each item of each section of a document is an item of the input, in its order, by a row of the section's table.
pub fn items_are_said<S, K, V, X>()
    ensures { (tables : Tables S K V X) → ItemsAreSaid tables }
{}

/// A law: in each section of a document the items of each row of its table stand as often as the row asks for.
pub fn rows_stand_as_often<S, K, V, X>()
    ensures { (tables : Tables S K V X) → RowsStandAsOften tables }
{}

/// A law: the sections of a document come in the order of its table, where the table is sound; each begins with its opener.
pub fn sections_stand_in_order<S, K, V, X>()
    ensures { (tables : Tables S K V X) → SectionsStandInOrder tables }
{}
