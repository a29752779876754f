// What a descriptor is, by its own text.
ghost use Rattle.descriptor_parts.specs.Texts.{DescriptorsAreOfTheirText};

/// A law: a descriptor that is read of an input, whatever stands before it that is blank and whatever follows, is the
/// descriptor that its own text alone is read as, whole: its facts, its identity, its digest and its text.
pub fn descriptors_are_of_their_text()
    ensures { DescriptorsAreOfTheirText }
{}
