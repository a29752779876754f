// What is kept of a descriptor's items: numbers, and where its texts stand.
ghost use Rattle.std.specs.Prelude.{◌≡◌};
ghost use Rattle.descriptor_doc.specs.Heads as heads;

use crate::says::{
    bandwidth_at, ed_signature_at, fingerprint_if, has_item, hibernating_at, key_at, object_if,
    router_at, uptime_at,
};
use descriptor_frame::{BandwidthLine, DescriptorValue, RouterLine};
use dir_values::Fingerprint;
use frame_terms::{Keyword, Taken};
use frame_values::{
    Span, Value, after_at, line_end_at, number_at, object_at, place_at, separator_at, text_if,
};

/// What the items of a descriptor say that stand at most once, and where its texts stand in its bytes. Moments are seconds
/// since 1970-01-01 00:00:00 UTC.
#[derive(Clone, Copy, Debug)]
pub struct Head {
    /// The place of the first item.
    pub begin: u64,
    /// The place after the keyword `router-sig-ed25519`.
    pub ed_separator: u64,
    /// The place after the line `router-signature`.
    pub signed_end: u64,
    /// The place after the last object.
    pub end: u64,
    /// The relay.
    pub router: RouterLine,
    /// The lines of the certificate of its Ed25519 signing key.
    pub identity_ed25519: Option<Span>,
    /// Its Ed25519 identity key.
    pub master_key_ed25519: Option<[u8; 32]>,
    /// The software and the system that it runs on.
    pub platform: Option<Span>,
    /// When the descriptor was made.
    pub published: u64,
    /// Its RSA identity, as it says itself.
    pub fingerprint: Option<Fingerprint>,
    /// The seconds for which it runs.
    pub uptime: Option<u64>,
    /// What it can carry.
    pub bandwidth: BandwidthLine,
    /// Whether it rests.
    pub hibernating: Option<bool>,
    /// The lines of its RSA onion key.
    pub onion_key: Option<Span>,
    /// The lines of its RSA identity key.
    pub signing_key: Span,
    /// Its ntor onion key.
    pub ntor_onion_key: Option<[u8; 32]>,
    /// The summary of its exit policy for IPv6.
    pub ipv6_policy: Option<Span>,
    /// Its family.
    pub family: Option<Span>,
    /// Whether it answers directory requests over its onion routing port.
    pub tunnelled_dir_server: bool,
    /// The protocols that it knows.
    pub proto: Option<Span>,
    /// Its operator.
    pub contact: Option<Span>,
    /// Its Ed25519 signing key's signature.
    pub router_sig_ed25519: Option<[u8; 64]>,
    /// The lines of its RSA identity key's signature.
    pub router_signature: Span,
}

/// What is kept of a descriptor with these items.
pub fn head_of(taken: &[Taken<Value<DescriptorValue>>]) -> Head
    ensures { result ≡ heads.head_of taken.now }
{
    Head {
        begin: place_at(taken, Keyword::Router),
        ed_separator: separator_at(taken, Keyword::RouterSigEd25519),
        signed_end: line_end_at(taken, Keyword::RouterSignature),
        end: after_at(taken, Keyword::RouterSignature),
        router: router_at(taken),
        identity_ed25519: object_if(taken, Keyword::IdentityEd25519),
        master_key_ed25519: key_at(taken, Keyword::MasterKeyEd25519),
        platform: text_if(taken, Keyword::Platform),
        published: number_at(taken, Keyword::Published),
        fingerprint: fingerprint_if(taken, Keyword::Fingerprint),
        uptime: uptime_at(taken),
        bandwidth: bandwidth_at(taken),
        hibernating: hibernating_at(taken),
        onion_key: object_if(taken, Keyword::OnionKey),
        signing_key: object_at(taken, Keyword::SigningKey),
        ntor_onion_key: key_at(taken, Keyword::NtorOnionKey),
        ipv6_policy: text_if(taken, Keyword::Ipv6Policy),
        family: text_if(taken, Keyword::Family),
        tunnelled_dir_server: has_item(taken, Keyword::TunnelledDirServer),
        proto: text_if(taken, Keyword::Proto),
        contact: text_if(taken, Keyword::Contact),
        router_sig_ed25519: ed_signature_at(taken),
        router_signature: object_at(taken, Keyword::RouterSignature),
    }
}
