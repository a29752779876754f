// What the items of a document are, as laws: the lines of the text, in order, are blank lines and
// the lines of the items.

ghost use Rattle.grammar_laws.specs.{Blocks.{ItemsAreThere, NoOthersAre}, BlockFaults.FaultsAreThere};

/// A law: where no fault is found, the lines of the text, in order, are blank lines and the lines
/// of the items that are found; an item's are its keyword line and those of its object, if it has
/// one.
pub fn items_are_there()
    ensures { ItemsAreThere }
{}

/// A law: where the lines of the text, in order, are blank lines and the lines of some items, these
/// are the items that are found, and no fault is.
pub fn no_others_are()
    ensures { NoOthersAre }
{}

/// A law: a fault is found exactly where the lines of the text are, in order, blank lines and the
/// lines of the items that are found, and then a line or an object that has this fault.
pub fn faults_are_there()
    ensures { FaultsAreThere }
{}
