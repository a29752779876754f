// What is read of a server descriptor says what can be written.
ghost use Rattle.descriptor_laws.specs.Values.{ReadDescriptorsSayInRange};

/// A law: each value of a descriptor that is read from bytes is one that a descriptor may have which is written and read again.
pub fn read_descriptors_say_in_range()
    ensures { ReadDescriptorsSayInRange }
{}
