// Why no consensus is computed.
use frame_terms::FrameFault;
use vote_doc::VoteWord;

/// Why votes are not held.
#[derive(Clone, Copy, Debug, PartialEq, Eq)]
pub enum AcceptRefusal {
    /// The vote with this number, from 1, is the first that is not acceptable, for this reason.
    Vote { number: u64, word: VoteWord },
    /// The verifier failed, and it is not known whether the vote holds of which it was asked.
    Verifier,
}

/// Why a list of votes gives no consensus.
#[derive(Clone, Copy, Debug, PartialEq, Eq)]
pub enum VoteListRefusal {
    /// The vote with this number, from 1, is the first that is not acceptable, for this reason.
    Vote { number: u64, word: VoteWord },
    /// The authorities whose votes are held are not more than half of the roster.
    TooFew { held: u64, roster: u32 },
}

/// Why `compute` gives no text.
#[derive(Clone, Copy, Debug, PartialEq, Eq)]
pub enum ComputeRefusal {
    /// The input is no list of votes, with its first fault.
    Fault(FrameFault),
    /// The votes that it is give no consensus.
    Votes(VoteListRefusal),
    /// The verifier failed, and it is not known whether the vote holds of which it was asked.
    Verifier,
}

/// Why an input gives no held votes.
#[derive(Clone, Copy, Debug, PartialEq, Eq)]
pub(crate) enum EndRefusal {
    /// It is no list of votes, with its first fault.
    Fault(FrameFault),
    /// The votes that it is are not held.
    Votes(AcceptRefusal),
}
