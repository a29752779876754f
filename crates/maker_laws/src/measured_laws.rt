// What a vote tells of measured bandwidths.
ghost use Rattle.maker_laws.specs.Votes.{EntriesAreTold, ToldEntriesAreTold, ToldRelaysAreTold};

/// A law: where a file tells the bandwidths of relays, each entry of the vote that is made has, as what was measured, exactly what the
/// file gives its relay.
pub fn entries_are_told()
    ensures { EntriesAreTold }
{}

/// A law: what was measured, with a file's bandwidths, is told by that file.
pub fn told_relays_are_told()
    ensures { ToldRelaysAreTold }
{}

/// A law: so the entries of the vote that is made of it are told by the file.
pub fn told_entries_are_told()
    ensures { ToldEntriesAreTold }
{}
