// The keywords of all kinds of documents.

/// A keyword of a directory document, named as it is written (dir-spec, "Creating key certificates", "Vote and consensus
/// status document formats", "Server descriptor format", "Computing microdescriptors"), or of what a station is given.
#[derive(Clone, Copy, Debug, PartialEq, Eq)]
pub enum Keyword {
    /// `r`
    R,
    /// `a`
    A,
    /// `s`
    S,
    /// `v`
    V,
    /// `pr`
    Pr,
    /// `w`
    W,
    /// `p`
    P,
    /// `m`
    M,
    /// `id`
    Id,
    /// `network-status-version`
    NetworkStatusVersion,
    /// `vote-status`
    VoteStatus,
    /// `consensus-methods`
    ConsensusMethods,
    /// `consensus-method`
    ConsensusMethod,
    /// `published`
    Published,
    /// `valid-after`
    ValidAfter,
    /// `fresh-until`
    FreshUntil,
    /// `valid-until`
    ValidUntil,
    /// `voting-delay`
    VotingDelay,
    /// `client-versions`
    ClientVersions,
    /// `server-versions`
    ServerVersions,
    /// `known-flags`
    KnownFlags,
    /// `flag-thresholds`
    FlagThresholds,
    /// `recommended-client-protocols`
    RecommendedClientProtocols,
    /// `recommended-relay-protocols`
    RecommendedRelayProtocols,
    /// `required-client-protocols`
    RequiredClientProtocols,
    /// `required-relay-protocols`
    RequiredRelayProtocols,
    /// `params`
    Params,
    /// `shared-rand-previous-value`
    SharedRandPreviousValue,
    /// `shared-rand-current-value`
    SharedRandCurrentValue,
    /// `dir-source`
    DirSource,
    /// `contact`
    Contact,
    /// `vote-digest`
    VoteDigest,
    /// `directory-footer`
    DirectoryFooter,
    /// `bandwidth-weights`
    BandwidthWeights,
    /// `directory-signature`
    DirectorySignature,
    /// `dir-key-certificate-version`
    DirKeyCertificateVersion,
    /// `dir-address`
    DirAddress,
    /// `fingerprint`
    Fingerprint,
    /// `dir-identity-key`
    DirIdentityKey,
    /// `dir-key-published`
    DirKeyPublished,
    /// `dir-key-expires`
    DirKeyExpires,
    /// `dir-signing-key`
    DirSigningKey,
    /// `dir-key-crosscert`
    DirKeyCrosscert,
    /// `dir-key-certification`
    DirKeyCertification,
    /// `consensus-digest`
    ConsensusDigest,
    /// `additional-digest`
    AdditionalDigest,
    /// `additional-signature`
    AdditionalSignature,
    /// `router`
    Router,
    /// `identity-ed25519`
    IdentityEd25519,
    /// `master-key-ed25519`
    MasterKeyEd25519,
    /// `platform`
    Platform,
    /// `uptime`
    Uptime,
    /// `bandwidth`
    Bandwidth,
    /// `hibernating`
    Hibernating,
    /// `onion-key`
    OnionKey,
    /// `signing-key`
    SigningKey,
    /// `ntor-onion-key`
    NtorOnionKey,
    /// `accept`
    Accept,
    /// `reject`
    Reject,
    /// `ipv6-policy`
    Ipv6Policy,
    /// `family`
    Family,
    /// `or-address`
    OrAddress,
    /// `tunnelled-dir-server`
    TunnelledDirServer,
    /// `proto`
    Proto,
    /// `router-sig-ed25519`
    RouterSigEd25519,
    /// `router-signature`
    RouterSignature,
    /// `p6`
    P6,
    /// `station`
    Station,
    /// `own`
    Own,
    /// `schedule`
    Schedule,
    /// `authority`
    Authority,
    /// `rule`
    Rule,
    /// `measured`
    Measured,
    /// `end-station`
    EndStation,
    /// `family-ids`
    FamilyIds,
}
