// What the definitions of reading and of writing have in common.
ghost use Rattle.descriptor_laws.specs.{Again.DescriptorsAreReadAgain, Lines.DescriptorLinesAreReadAgain};

/// A law: lines of server descriptors that were written are read as what they were written for: a relay, what it can carry,
/// an identity in groups, the items of an exit policy, keys and signatures.
pub fn descriptor_lines_are_read_again()
    ensures { DescriptorLinesAreReadAgain }
{}

/// A law: a server descriptor that was written is read again, whatever follows it. What is read says the same, has the
/// identity, the digests and the text of the text that was written, and ends where it ends.
pub fn descriptors_are_read_again()
    ensures { DescriptorsAreReadAgain }
{}
