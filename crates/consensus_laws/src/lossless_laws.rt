// That nothing is lost of what is read of a document.
ghost use Rattle.consensus_laws.specs.{Capping.MomentsAreNotCapped, HexDigests.DigestsAreHex};
ghost use Rattle.consensus_laws.specs.{Listing.ListsAreReadWhole, Members.MembersAreThere, Methods.MethodsAreNotCapped};
ghost use Rattle.consensus_laws.specs.{SaidDigests.DigestsAreSaid, Spelling.ObjectsSpellBytes};

/// A law: the lines of each object of an item that is read spell bytes, which are those that are kept of it.
pub fn objects_spell_bytes()
    ensures { ObjectsSpellBytes }
{}

/// A law: each moment that the line of an item says is one of the calendar, so that the cap at its last moment cuts nothing off.
pub fn moments_are_not_capped()
    ensures { MomentsAreNotCapped }
{}

/// A law: each text that is read as a line of params, of versions of Tor or of versions of protocols lists what is kept of it.
pub fn lists_are_read_whole()
    ensures { ListsAreReadWhole }
{}

/// A law: a list has a member at each place that is less than its length, in ascending order, and a list with members has one at its low
/// median, so that neither is ever the 0 of none (dir-spec, "Computing a consensus from a set of votes").
pub fn members_are_there()
    ensures { MembersAreThere }
{}

/// A law: each consensus method that is read is below 2^32, so that the cap at its last number cuts nothing off.
pub fn methods_are_not_capped()
    ensures { MethodsAreNotCapped }
{}

/// A law: each digest of another flavour that detached signatures say is hex, and what it spells is what is kept of it (dir-spec,
/// "Serving and fetching detached signatures").
pub fn digests_are_hex()
    ensures { DigestsAreHex }
{}

/// A law: detached signatures that are read say the digest of a consensus, which is what is kept.
pub fn digests_are_said()
    ensures { DigestsAreSaid }
{}
