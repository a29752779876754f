// Which duties of a period are done.
ghost use Rattle.std.specs.Prelude.{◌≡◌};
ghost use Rattle.serve_rounds.specs.Plans as plans;
ghost use Rattle.serve_rounds.specs.Plans.{empty_round, turned_round};

/// Which duties of a period are done. A new round has done none, of no period.
#[derive(Clone, Copy, Debug, PartialEq, Eq)]
pub struct Round {
    /// When the period begins that it is of.
    pub(crate) valid_after: u64,
    /// The own vote was offered, and brought to each peer.
    pub(crate) voted: bool,
    /// The votes that lacked were asked for.
    pub(crate) fetched: bool,
    /// The authority signed.
    pub(crate) signed: bool,
    /// The own signatures were brought to each peer.
    pub(crate) posted: bool,
    /// Each peer was asked for signatures.
    pub(crate) gathered: bool,
}

/// A round of a period of which nothing is done.
fn of_period(valid_after: u64) -> Round
    ensures { result ≡ empty_round valid_after }
{
    Round {
        valid_after,
        voted: false,
        fetched: false,
        signed: false,
        posted: false,
        gathered: false,
    }
}

impl Round {
    /// A round that has done nothing.
    pub fn new() -> Round
        ensures { result ≡ empty_round 0 }
    {
        of_period(0)
    }

    /// Turns to the period that begins then, where it is another one, and remembers whether the authority signed.
    pub(crate) fn turn_to(&mut self, valid_after: u64, signed: bool)
        ensures is { self.new ≡ turned_round valid_after signed self.old }
        ensures period { self.new.valid_after ≡ valid_after }
    {
        if self.valid_after != valid_after {
            *self = of_period(valid_after);
        }
        if signed {
            self.signed = true;
        }
    }

    /// Whether the signatures that are held are still to be brought to the peers: the authority signed, and they were not.
    pub(crate) fn must_bring(&self) -> bool
        ensures { result ≡ plans.must_bring self.now }
    {
        self.signed && !self.posted
    }
}
