// Laws of canonical families.
ghost use Rattle.descriptor_frame.specs.Families as families;

/// A law: a canonical family ascends by its bytes, each name once.
pub fn families_ascend()
    ensures { families.FamiliesAscend }
{}

/// A law: a name is in a canonical family exactly where it is the canonical form of one of the names that make it.
pub fn families_have_their_names()
    ensures { families.FamiliesHaveTheirNames }
{}
