// What a vote says, as values.
use crate::entry::EntryFacts;
use crate::lists::VoteLists;
use authority_certs::Cert;
use dir_bytes::{Seq, Text};
use dir_values::{Algorithm, Digest1, Fingerprint, FlagSet};
use value_groups::SharedRandom;

/// What a `directory-signature` says.
#[derive(Debug, Drop)]
pub struct SignatureFacts {
    /// The hash that the signature is made over, SHA-1 where the line names none.
    pub algorithm: Algorithm,
    /// The identity of the authority that signed.
    pub identity: Fingerprint,
    /// The digest of its signing key.
    pub key_digest: Digest1,
    /// The signature.
    pub signature: Text,
}

/// What a vote says (dir-spec, "Vote and consensus status document formats"): a field for each item that is read, but for
/// those that say always the same. Moments are seconds since 1970-01-01 00:00:00 UTC.
#[derive(Debug, Drop)]
pub struct VoteFacts {
    /// The consensus methods in the order in which the vote names them, where it does.
    pub methods: Option<Seq<u32>>,
    /// When the vote was published.
    pub published: u64,
    /// When the period begins that the vote is for.
    pub valid_after: u64,
    /// Until when the consensus is to be fresh.
    pub fresh_until: u64,
    /// Until when the consensus is to be valid.
    pub valid_until: u64,
    /// The seconds for exchanging votes.
    pub vote_seconds: u32,
    /// The seconds for exchanging signatures.
    pub dist_seconds: u32,
    /// The flags that the vote knows.
    pub known_flags: FlagSet,
    /// The text of its flag thresholds, where it gives them.
    pub flag_thresholds: Option<Text>,
    /// Its versions, protocols and params.
    pub lists: VoteLists,
    /// The authority's nickname.
    pub nickname: Text,
    /// The authority's identity.
    pub identity: Fingerprint,
    /// The name of the authority's host.
    pub address: Text,
    /// The authority's IPv4 address, its first byte highest.
    pub ip: u32,
    /// The authority's directory port.
    pub dir_port: u16,
    /// The authority's onion routing port.
    pub or_port: u16,
    /// The text of the authority's contact, where the vote gives it.
    pub contact: Option<Text>,
    /// The shared random value of the period before the one that begins, where the vote gives it.
    pub random_previous: Option<SharedRandom>,
    /// The shared random value of the period that begins, where the vote gives it.
    pub random_current: Option<SharedRandom>,
    /// The authority's certificate.
    pub certificate: Cert,
    /// What it says of relays, strictly ascending by identity.
    pub entries: Seq<EntryFacts>,
    /// The signature.
    pub signature: SignatureFacts,
}
