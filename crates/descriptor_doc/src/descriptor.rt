// What a server descriptor says.
use bytes::Bytes;
use descriptor_frame::{BandwidthLine, EdCert};
use dir_bytes::{Seq, Text};
use dir_values::{Digest1, Digest2, Fingerprint, PortSummary};
use exit_summary::Policy;

/// Who a relay is and where it is reached, as its `router` line says.
#[derive(Debug, Drop)]
pub struct Router {
    /// Its nickname.
    pub nickname: Text,
    /// Its IPv4 address, the first byte highest.
    pub ip: u32,
    /// Its onion routing port.
    pub or_port: u16,
    /// Its SOCKS port.
    pub socks_port: u16,
    /// Its directory port.
    pub dir_port: u16,
}

/// A relay's Ed25519 signature of its descriptor.
#[derive(Clone, Copy, Debug, PartialEq, Eq)]
pub struct EdSignature {
    /// The signature of `covered`.
    pub signature: [u8; 64],
    /// The SHA-256 of `Tor router descriptor signature v1` and of the text from the first item through the first space after
    /// `router-sig-ed25519`. It is computed from the text that was read.
    pub covered: Digest2,
}

/// A server descriptor (dir-spec, "Server descriptor format"): what a relay says of itself. It has a field for each of its
/// items, and behind them what is computed from the text that was read.
#[derive(Debug, Drop)]
pub struct Descriptor {
    /// Who the relay is.
    pub router: Router,
    /// The certificate of its Ed25519 signing key.
    pub identity_ed25519: Option<EdCert>,
    /// Its Ed25519 identity key.
    pub master_key_ed25519: Option<[u8; 32]>,
    /// The software and the system that it runs on.
    pub platform: Option<Text>,
    /// When the descriptor was made, in seconds since 1970-01-01 00:00:00 UTC.
    pub published: u64,
    /// Its RSA identity, as it says itself.
    pub fingerprint: Option<Fingerprint>,
    /// The seconds for which it runs.
    pub uptime: Option<u64>,
    /// What it can carry.
    pub bandwidth: BandwidthLine,
    /// Whether it rests.
    pub hibernating: Option<bool>,
    /// Its RSA onion key.
    pub onion_key: Option<Text>,
    /// Its RSA identity key.
    pub signing_key: Text,
    /// Its ntor onion key.
    pub ntor_onion_key: Option<[u8; 32]>,
    /// Its exit policy: the `accept` and `reject` lines, in their order.
    pub policy: Policy,
    /// The summary of its exit policy for IPv6.
    pub ipv6_policy: Option<PortSummary>,
    /// The relays of its family, in their order.
    pub family: Option<Seq<Text>>,
    /// Its further addresses, in their order.
    pub or_addresses: Seq<Text>,
    /// Whether it answers directory requests over its onion routing port.
    pub tunnelled_dir_server: bool,
    /// The protocols that it knows.
    pub proto: Option<Text>,
    /// Its operator.
    pub contact: Option<Text>,
    /// Its Ed25519 signing key's signature.
    pub router_sig_ed25519: Option<EdSignature>,
    /// Its RSA identity key's signature of `digest`.
    pub router_signature: Text,
    /// Its RSA identity: the SHA-1 of `signing_key`.
    pub identity: Fingerprint,
    /// The SHA-1 of the text from the first item through the line `router-signature` with its NL.
    pub digest: Digest1,
    /// The bytes that were read, from the first item through the last object, shared with the input.
    pub text: Bytes,
    /// The certificates by which family keys name the relay, as the items `family-cert` of the text say them, in their order;
    /// None where one of these items says none. They are read from consensus method 35 on: else there are none.
    pub family_certs: Option<Seq<EdCert>>,
}
