// Why no vote is made of what a station is given.
use frame_terms::FrameFault;

/// What is wrong with what a station is given, before its descriptors are read; of several the first.
#[derive(Clone, Copy, Debug, PartialEq, Eq)]
pub enum OrderWord {
    /// Its authorities are none, more than 32, or one of them stands twice.
    Roster,
    /// Its three numbers are no schedule.
    Schedule,
    /// Its own authority is none of its authorities.
    Own,
}

/// The clause that a descriptor fails; of several the first.
#[derive(Clone, Copy, Debug, PartialEq, Eq)]
pub enum DescriptorWord {
    /// It names another identity than it has.
    Identity,
    /// The signing key's signature was refused.
    Signature,
    /// Its Ed25519 certificate had expired, or an Ed25519 signature was refused.
    Ed25519,
}

/// The clause that the own certificate fails; of several the first.
#[derive(Clone, Copy, Debug, PartialEq, Eq)]
pub enum CertWord {
    /// Its fingerprint is not that of its identity key.
    Fingerprint,
    /// It has expired when the period begins.
    Expired,
    /// The identity key's signature was refused.
    Certification,
    /// The signing key's signature of the identity key was refused.
    Crosscert,
}

/// Why the descriptors behind what a station is given make no pool.
#[derive(Clone, Copy, Debug, PartialEq, Eq)]
pub enum PoolRefusal {
    /// One of them is no descriptor, with its first fault.
    Fault(FrameFault),
    /// The descriptor with this number, from 1, is the first that does not hold, for this reason.
    Descriptor { number: u64, word: DescriptorWord },
    /// They are of more relays than a pool may hold.
    Full,
    /// The verifier failed, and it is not known whether the descriptor holds of which it was asked.
    Verifier,
}

/// Why a station can make no vote; of several reasons the first.
#[derive(Clone, Copy, Debug, PartialEq, Eq)]
pub enum StationRefusal {
    /// The input begins with nothing that a station can be given.
    Fault(FrameFault),
    /// What it is given is wrong, for this reason.
    Order(OrderWord),
    /// What stands behind that is no descriptor, with its first fault.
    NoDescriptor(FrameFault),
    /// The descriptor with this number, from 1, is the first that does not hold, for this reason.
    Descriptor { number: u64, word: DescriptorWord },
    /// Its descriptors are of more relays than a pool may hold.
    PoolFull,
    /// No consensus can be made after this moment whose life ends before the last moment.
    EndOfTime,
    /// The own certificate does not hold when the period begins, for this reason.
    OwnCert(CertWord),
}

/// Why `make-vote` gives no vote.
#[derive(Clone, Copy, Debug, PartialEq, Eq)]
pub enum MakeVoteRefusal {
    /// The station can make none.
    Station(StationRefusal),
    /// The made vote is longer than a vote may be.
    MadeVote,
    /// The verifier failed, and it is not known whether what it was asked of holds.
    Verifier,
    /// The signer failed.
    Signer,
}
