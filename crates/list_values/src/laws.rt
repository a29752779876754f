// Laws of the definitions. There is nothing to run.
ghost use Rattle.list_values.specs.Laws.{ValuesAreFound, RangesHaveTheirNumbers};

/// A value that is put in for a name is found for it, and nothing else changes.
pub fn values_are_found<V>()
    ensures { ValuesAreFound V }
{}

/// The ranges of some numbers have these numbers, and no others.
pub fn ranges_have_their_numbers()
    ensures { RangesHaveTheirNumbers }
{}
