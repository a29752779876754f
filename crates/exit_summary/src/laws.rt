// Laws of summaries, and of the ranges that they are made of. There is nothing to run.
ghost use Rattle.exit_summary.specs.{PortRanges.{RangesAreApart, RangesHaveTheirPorts}, Summaries.SummariesAccept};
ghost use Rattle.exit_summary.specs.Summaries.{SummariesAcceptNoMore, SummariesAreShort, CutsAreLongest};

/// The ranges of the ports that pass a test ascend and are apart.
pub fn ranges_are_apart()
    ensures { RangesAreApart }
{}

/// A port is in one of them exactly where it passes.
pub fn ranges_have_their_ports()
    ensures { RangesHaveTheirPorts }
{}

/// A summary that is not cut accepts the ports that the policy accepts.
pub fn summaries_accept()
    ensures { SummariesAccept }
{}

/// A summary accepts no others, cut or not.
pub fn summaries_accept_no_more()
    ensures { SummariesAcceptNoMore }
{}

/// The text of a summary has at most 1,000 bytes.
pub fn summaries_are_short()
    ensures { SummariesAreShort }
{}

/// A summary that is cut has the first ranges that are accepted, as many as 1,000 bytes have room for.
pub fn cuts_are_longest()
    ensures { CutsAreLongest }
{}
