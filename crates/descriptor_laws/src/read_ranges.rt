// What is read of a server descriptor is in range.
ghost use Rattle.descriptor_laws.specs.ReadRanges.{DescriptorsReadAreInRange};

/// A law: what is read of a server descriptor is in range: its relay is one that a vote's entry may say, its moment is one of
/// the calendar, its certificate's signer has thirty-two bytes, and its platform, protocols and further addresses may stand
/// in lines, of no more bytes than a descriptor has.
pub fn descriptors_read_are_in_range()
    ensures { DescriptorsReadAreInRange }
{}
