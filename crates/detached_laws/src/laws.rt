// What the definitions of reading and of writing have in common, and what is read is in range.
ghost use Rattle.detached_laws.specs.Again.{DetachedAreReadAgain, DetachedInOrderAreTheSame};
ghost use Rattle.detached_laws.specs.Read.{DetachedReadAreInRange};

/// A law: detached signatures that were written are read again. What is read says the same, with the signatures in the order in
/// which they stand in the text, and ends with the text.
pub fn detached_signatures_are_read_again()
    ensures { DetachedAreReadAgain }
{}

/// A law: where the signatures stand in the order in which they are written, and those over the ns flavour are of known
/// algorithms, what is read is what was written.
pub fn detached_signatures_in_order_are_the_same()
    ensures { DetachedInOrderAreTheSame }
{}

/// A law: detached signatures that are read are in range. Each of their values is one that can be read, as it is asked of those
/// that are written and read again, whose items pass no limit.
pub fn detached_signatures_read_are_in_range()
    ensures { DetachedReadAreInRange }
{}
