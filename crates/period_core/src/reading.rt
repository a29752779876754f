// What is read of an authority.
ghost use Rattle.std.specs.Prelude.{◌≡◌, nat_le, option_map};
ghost use Rattle.dir_values.specs.Rosters as rosters;
ghost use Rattle.period_terms.specs.Offers.{most_vote_changes};
ghost use Rattle.period_terms.specs.Schedules as schedules;
ghost use Rattle.period_terms.specs.States as states;
ghost use Rattle.vote_terms.specs.Votes.{rank_of};

use crate::made::Made;
use crate::state::PeriodState;
use consensus_terms::{Flavour, SignatureLine};
use count_terms::Newest;
use dir_values::{Fingerprint, Roster};
use key_port::Verifier;
use period_terms::{Change, Stage, Via};
use vote_doc::Accepted;
use vote_schedule::{freeze, upload_cutoff};
use vote_terms::Rank;

const MOST_VOTE_CHANGES: u64 = 65_535;

impl<V: Verifier> PeriodState<V> {
    /// When the period begins.
    pub fn valid_after(&self) -> u64
        ensures { result ≡ self.now.valid_after }
    {
        self.valid_after
    }

    /// How many changes were made since the start.
    pub fn front(&self) -> u64
        ensures { result ≡ self.now.front }
    {
        self.log.front
    }

    /// How many of the changes were made before the period began.
    pub fn base(&self) -> u64
        ensures { result ≡ self.now.base }
    {
        self.log.base
    }

    /// The changes since the period began.
    pub fn changes(&self) -> &[Change]
        ensures { result.now ≡ self.now.changes }
    {
        self.log.changes.as_slice()
    }

    /// The authorities that the consensus is of.
    pub fn roster(&self) -> &Roster
        ensures { result.now ≡ self.now.roster }
    {
        &self.roster
    }

    /// The authority itself.
    pub fn own(&self) -> Fingerprint
        ensures { result ≡ self.now.own }
    {
        self.own
    }

    /// The newest consensus method that it knows.
    pub fn newest(&self) -> Newest
        ensures { result ≡ self.now.newest }
    {
        self.newest
    }

    /// The held votes.
    pub fn votes(&self) -> &Accepted
        ensures { result.now.votes ≡ self.now.votes }
    {
        &self.held
    }

    /// What is computed, if something is.
    pub fn computed(&self) -> Option<&Made>
        ensures { option_map (λ r. r.now) result ≡ self.now.computed }
    {
        self.made.as_ref()
    }

    /// The signatures of a flavour that are held, in the order in which they came.
    pub fn lines(&self, flavour: Flavour) -> &[SignatureLine]
        ensures { result.now ≡ states.lines_of flavour self.now }
    {
        match flavour {
            Flavour::Ns => &self.ns_lines,
            Flavour::Microdesc => &self.micro_lines,
        }
    }

    /// Whether an authority is a member of the roster.
    pub(crate) fn has_member(&self, authority: &Fingerprint) -> bool
        ensures { result ≡ rosters.has_member self.now.roster authority.now }
    {
        self.roster.contains(authority)
    }

    /// From when on a vote that comes this way is late.
    pub(crate) fn cutoff(&self, via: Via) -> u64
        ensures { result ≡ schedules.cutoff_of via self.now.schedule self.now.valid_after }
    {
        match via {
            Via::Upload => upload_cutoff(&self.config, self.valid_after),
            Via::Fetched | Via::Own => freeze(&self.config, self.valid_after),
        }
    }

    /// Whether votes are taken.
    pub(crate) fn is_voting(&self) -> bool
        ensures { result ≡ states.is_voting self.now.stage }
    {
        match self.stage {
            Stage::Voting => true,
            Stage::Frozen | Stage::Computed | Stage::Signed | Stage::Ended => false,
        }
    }

    /// Whether the period has as many changes of votes as it may have.
    pub(crate) fn is_full(&self) -> bool
        ensures { result ≡ nat_le most_vote_changes self.now.vote_changes }
    {
        MOST_VOTE_CHANGES <= self.vote_changes
    }

    /// The rank of the held vote of an authority, if one is held.
    pub(crate) fn rank_held(&self, authority: &Fingerprint) -> Option<Rank>
        ensures { result ≡ option_map rank_of (states.vote_of self.now.votes authority.now) }
    {
        match self.held.vote_of(authority) {
            Some(held) => Some(held.rank()),
            None => None,
        }
    }
}
