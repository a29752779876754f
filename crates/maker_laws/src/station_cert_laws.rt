// What holds of the certificate that a station is given.
ghost use Rattle.maker_laws.specs.CertsGiven.{StationsCertificatesAreGiven};

/// A law: the bytes of the certificate inside a station input are one certificate alone, which says the same, and which may
/// stand as it is in a vote.
pub fn station_certificates_are_given()
    ensures { StationsCertificatesAreGiven }
{}
