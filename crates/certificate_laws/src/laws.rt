// What the definitions of reading and of writing have in common.
ghost use Rattle.certificate_laws.specs.Again.{CertificatesAreReadAgain};

/// A law: a certificate that was written is read again, whatever follows it. What is read says the same, with the
/// digest of the text that was written, and ends where it ends.
pub fn certificates_are_read_again()
    ensures { CertificatesAreReadAgain }
{}
