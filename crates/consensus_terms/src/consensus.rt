// The record of a consensus.
use crate::flavour::Flavour;
use crate::router::Routerline;
use crate::signature::SignatureLine;
use bw_weights::Weights;
use dir_bytes::{Seq, Text};
use dir_values::{Digest1, Fingerprint, FlagSet};
use list_values::{Params, ProtoRanges, VersionList};
use value_groups::SharedRandom;

/// What the lines of a consensus's preamble say that are lists of values. An empty list has no line, or from method 34 on, but for
/// the params, one without arguments.
#[derive(Debug, Drop)]
pub struct ConsensusLists {
    /// The versions that are recommended to clients, ascending.
    pub client_versions: VersionList,
    /// The versions that are recommended to relays, ascending.
    pub server_versions: VersionList,
    /// The versions of protocols that are recommended to clients.
    pub recommended_client_protocols: ProtoRanges,
    /// Those that are recommended to relays.
    pub recommended_relay_protocols: ProtoRanges,
    /// Those that are required of clients.
    pub required_client_protocols: ProtoRanges,
    /// Those that are required of relays.
    pub required_relay_protocols: ProtoRanges,
    /// The params.
    pub params: Params,
}

/// What a consensus says but for its weights (dir-spec, "Computing a consensus from a set of votes"). Moments are seconds since
/// 1970-01-01 00:00:00 UTC.
#[derive(Debug, Drop)]
pub struct ConsensusFacts {
    /// The consensus method.
    pub method: u32,
    /// When its period begins.
    pub valid_after: u64,
    /// Until when it is fresh: then the next one is to be there.
    pub fresh_until: u64,
    /// Until when it is valid.
    pub valid_until: u64,
    /// The seconds that authorities have for exchanging votes.
    pub vote_seconds: u32,
    /// The seconds that authorities have for exchanging signatures.
    pub dist_seconds: u32,
    /// The flags that it knows.
    pub known_flags: FlagSet,
    /// Its versions, protocols and params.
    pub lists: ConsensusLists,
    /// The shared random value of the period before the one that begins, where there is one.
    pub random_previous: Option<SharedRandom>,
    /// The shared random value of the period that begins, where there is one.
    pub random_current: Option<SharedRandom>,
    /// One line for each held vote, ascending by identity.
    pub sources: Seq<SourceLine>,
    /// One line for each relay that is listed, ascending by RSA identity.
    pub routers: Seq<Routerline>,
}

/// A consensus that is computed.
#[derive(Debug, Drop)]
pub struct Consensus {
    /// What it says.
    pub facts: ConsensusFacts,
    /// Its weights of bandwidth, where they stand in a line.
    pub weights: Option<Weights>,
}

/// A consensus that was read.
#[derive(Debug, Drop)]
pub struct SignedConsensus {
    /// Its flavour.
    pub flavour: Flavour,
    /// What it says. In the microdesc flavour each digest of a descriptor is zeros.
    pub facts: ConsensusFacts,
    /// The text of its weights, where it has them.
    pub weights: Option<Text>,
    /// Its signatures of known algorithms, in their order.
    pub signatures: Seq<SignatureLine>,
    /// The places of the first byte of its signed part and of the byte after it, where it has a signature.
    pub signed: Option<(u64, u64)>,
}

/// What a consensus says of an authority whose vote it counts.
#[derive(Debug, Drop)]
pub struct SourceLine {
    /// The nickname.
    pub nickname: Text,
    /// The identity.
    pub identity: Fingerprint,
    /// The host's name.
    pub address: Text,
    /// The IPv4 address, its first byte highest.
    pub ip: u32,
    /// The directory port.
    pub dir_port: u16,
    /// The onion routing port.
    pub or_port: u16,
    /// The text of its contact, where its vote has one.
    pub contact: Option<Text>,
    /// The SHA-1 of the signed part of its vote.
    pub vote_digest: Digest1,
}
