// Which relays a consensus lists; what is held of several lists of votes, and the texts that follow from it.
ghost use Rattle.answer_laws.specs.{Deliveries.{HeldAlike, HeldOfLists, TextsAgree}, Listed.ListedRelaysAreListed};
ghost use Rattle.answer_laws.specs.Ranks.{RanksAreOrdered};

/// An RSA identity stands among the routers of a consensus exactly where it is included and its flags have `Running` and
/// `Valid` (dir-spec, "Computing a consensus from a set of votes").
pub fn listed_relays_are_listed()
    ensures { ListedRelaysAreListed }
{}

/// Ranks stand in one order: none is above itself, what is above one that is above a third is above the third, and of two
/// ranks one is above the other where they are not one.
pub fn ranks_are_ordered()
    ensures { RanksAreOrdered }
{}

/// What is held of a list of votes is told by the words of what is held alone: of any two lists of votes of which they
/// hold, the members are the same.
pub fn held_alike()
    ensures { HeldAlike }
{}

/// Of two lists of votes, one behind the other, what is held is what is held of the votes that are held of each: so votes that
/// come in parts may be held part by part.
pub fn held_of_lists()
    ensures { HeldOfLists }
{}

/// The order in which votes come, and how often, changes no byte of a consensus of either flavour, where no two different
/// votes of one authority share a rank (dir-spec, "Computing a consensus from a set of votes").
pub fn texts_agree()
    ensures { TextsAgree }
{}
