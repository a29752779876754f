// What is read is in range, but for the limits.
ghost use Rattle.range_laws.specs.Certificates.{CertificatesReadAreInRange, CertificatesWithinLimitsAreInRange};
ghost use Rattle.range_laws.specs.Votes.{VotesReadAreInRange, VotesWithinLimitsAreInRange};

/// A law: a certificate that is read is in range, but for the limits. Each of its values is one that can be read, and
/// each of its items may be written, but for the limits of its line, of its object and of the whole.
pub fn certificates_read_are_in_range()
    ensures { CertificatesReadAreInRange }
{}

/// A law: a certificate that is so is in range where no item passes a limit.
pub fn certificates_within_limits_are_in_range()
    ensures { CertificatesWithinLimitsAreInRange }
{}

/// A law: a vote that is read is in range, but for the limits. Each number, text and list is one that an item may have,
/// its entries ascend strictly by identity, no Ed25519 key stands twice, and each of its items may be written, but for
/// the limits of its line, of its object, of the certificate and of the whole.
pub fn votes_read_are_in_range()
    ensures { VotesReadAreInRange }
{}

/// A law: a vote that is so is in range where it passes no limit.
pub fn votes_within_limits_are_in_range()
    ensures { VotesWithinLimitsAreInRange }
{}
