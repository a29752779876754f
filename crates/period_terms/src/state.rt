// An authority at one moment of its history.
use crate::change::Change;
use crate::stage::Stage;
use crate::vote::OfferedVote;
use consensus_terms::{Consensus, SignatureLine};
use count_terms::Newest;
use dir_bytes::{Seq, Text};
use dir_values::Fingerprint;
use vote_schedule::Config;

/// An authority at one moment of its history.
#[derive(Drop)]
pub struct State {
    /// The authorities that the consensus is of.
    pub roster: Seq<Fingerprint>,
    /// This one.
    pub own: Fingerprint,
    /// The newest consensus method that it knows.
    pub newest: Newest,
    /// The schedule.
    pub schedule: Config,
    /// When the period begins, for which votes are taken.
    pub valid_after: u64,
    /// How far it is.
    pub stage: Stage,
    /// The held votes, ascending by authority.
    pub votes: Seq<OfferedVote>,
    /// How often a vote was kept in this period.
    pub vote_changes: u64,
    /// The consensus, where it is computed.
    pub computed: Option<Consensus>,
    /// The signatures of the ns flavour that are held, one for an authority, in the order in which they came.
    pub ns_lines: Seq<SignatureLine>,
    /// Those of the microdesc flavour.
    pub micro_lines: Seq<SignatureLine>,
    /// The text of the ns flavour that was published last.
    pub ns_current: Option<Text>,
    /// That of the microdesc flavour.
    pub micro_current: Option<Text>,
    /// How many changes were made.
    pub front: u64,
    /// How many of these were made when the period began.
    pub base: u64,
    /// The short forms of those made since.
    pub changes: Seq<Change>,
}
