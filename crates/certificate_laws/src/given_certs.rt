// What the bytes of a certificate are, alone and inside a vote.
ghost use Rattle.certificate_laws.specs.Inside.{GivenStandInside, OwnPartsAreCertificates};

/// A law: bytes that are one certificate, from their first byte to their last, with no keyword of a vote's frame inside, have
/// the same items wherever they stand, and are read as the certificate's section behind the items of a vote's authority. What
/// is taken of them says the certificate, and has them all for its bytes.
pub fn given_stand_inside()
    ensures { GivenStandInside }
{}

/// A law: the bytes of a certificate alone, from the first to where it ends, are read as the same certificate.
pub fn own_parts_are_certificates()
    ensures { OwnPartsAreCertificates }
{}
