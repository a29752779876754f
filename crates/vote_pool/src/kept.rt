// What a pool keeps of a descriptor.
ghost use Rattle.std.specs.Prelude.{◌≡◌};
ghost use Rattle.vote_pool.specs.Kept as kept;

use bytes::Bytes;
use descriptor_doc::{BandwidthLine, Descriptor, EdCert, Router};
use dir_bytes::{Seq, Text};
use dir_values::{Digest1, Fingerprint};

/// What votes, rules and requests ask of a descriptor. Of what it says no more is held but its text, which it shares with the
/// input.
#[derive(Drop)]
pub struct KeptDescriptor {
    /// Who the relay is and where it is reached.
    pub router: Router,
    /// Its Ed25519 identity key: the signer of its certificate.
    pub ed_key: Option<[u8; 32]>,
    /// Whether it has an RSA onion key.
    pub has_onion_key: bool,
    /// The software and the system that it runs on.
    pub platform: Option<Text>,
    /// When the descriptor was made, in seconds since 1970-01-01 00:00:00 UTC.
    pub published: u64,
    /// The seconds for which it runs.
    pub uptime: Option<u64>,
    /// What it can carry.
    pub bandwidth: BandwidthLine,
    /// Whether it rests.
    pub hibernating: Option<bool>,
    /// Its further addresses, in their order.
    pub or_addresses: Seq<Text>,
    /// Whether it answers directory requests over its onion routing port.
    pub tunnelled_dir_server: bool,
    /// The protocols that it knows.
    pub proto: Option<Text>,
    /// Its RSA identity.
    pub identity: Fingerprint,
    /// The digest that its RSA identity key signs.
    pub digest: Digest1,
    /// The bytes that were read.
    pub text: Bytes,
}

/// The signer of a certificate, where there is one.
fn signer_of(certificate: &Option<EdCert>) -> Option<[u8; 32]>
    ensures { result ≡ kept.signer_of certificate.now }
{
    match certificate {
        Some(certificate) => Some(certificate.signer),
        None => None,
    }
}

/// What is kept of a descriptor, of which the rest is let go.
pub(crate) fn kept_of(descriptor: Descriptor) -> KeptDescriptor
    ensures { result ≡ kept.kept_of descriptor }
{
    KeptDescriptor {
        ed_key: signer_of(&descriptor.identity_ed25519),
        router: descriptor.router,
        has_onion_key: descriptor.onion_key.is_some(),
        platform: descriptor.platform,
        published: descriptor.published,
        uptime: descriptor.uptime,
        bandwidth: descriptor.bandwidth,
        hibernating: descriptor.hibernating,
        or_addresses: descriptor.or_addresses,
        tunnelled_dir_server: descriptor.tunnelled_dir_server,
        proto: descriptor.proto,
        identity: descriptor.identity,
        digest: descriptor.digest,
        text: descriptor.text,
    }
}
