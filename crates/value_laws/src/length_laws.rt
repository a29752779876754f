// Canonical lists are no longer than what was read.
ghost use Rattle.value_laws.specs.Lengths as lengths;

/// A law: the canonical text of the params that a text lists is no longer than that text; so too of versions of Tor, and
/// of versions of protocols.
pub fn lists_are_no_longer()
    ensures params { lengths.ParamsAreNoLonger }
    ensures versions { lengths.VersionsAreNoLonger }
    ensures protocols { lengths.ProtocolsAreNoLonger }
{}
