// Why no vote is made with the bandwidths of a file.
use crate::refusal::MakeVoteRefusal;
use bandwidth_file::BandFault;

/// Why an input gives no bandwidth file that counts.
#[derive(Clone, Copy, Debug, PartialEq, Eq)]
pub enum BandwidthRefusal {
    /// It begins with no bandwidth file, with its first fault.
    Fault(BandFault),
    /// The bandwidth file with this time of measuring is too old to be voted on.
    Old { timestamp: u64 },
}

/// Why `make-vote --bandwidth` gives no vote.
#[derive(Clone, Copy, Debug, PartialEq, Eq)]
pub enum FileVoteRefusal {
    /// The input gives no bandwidth file that counts.
    File(BandwidthRefusal),
    /// No vote is made of what stands behind it.
    Vote(MakeVoteRefusal),
}
