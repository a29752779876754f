// What the definitions of reading say of the places of items.

ghost use Rattle.dirdoc_grammar.specs.InPlace.{StandInPlace};

/// A law: the keyword, the arguments and the object of each item stand in the input where the item
/// says, in order, and the item ends within the input.
pub fn stand_in_place()
    ensures { StandInPlace }
{}
