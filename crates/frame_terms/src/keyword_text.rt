// What a keyword's text is, and which keywords are one.
ghost use Rattle.std.specs.Prelude.{◌≡◌};
ghost use Rattle.frame_terms.specs.Keywords.{text_of, same};

use crate::keyword::Keyword;

impl Keyword {
    /// Its text.
    pub fn text(self) -> &'static [u8]
        ensures { result.now ≡ text_of self }
    {
        match self {
            Keyword::R => b"r",
            Keyword::A => b"a",
            Keyword::S => b"s",
            Keyword::V => b"v",
            Keyword::Pr => b"pr",
            Keyword::W => b"w",
            Keyword::P => b"p",
            Keyword::M => b"m",
            Keyword::Id => b"id",
            Keyword::NetworkStatusVersion => b"network-status-version",
            Keyword::VoteStatus => b"vote-status",
            Keyword::ConsensusMethods => b"consensus-methods",
            Keyword::ConsensusMethod => b"consensus-method",
            Keyword::Published => b"published",
            Keyword::ValidAfter => b"valid-after",
            Keyword::FreshUntil => b"fresh-until",
            Keyword::ValidUntil => b"valid-until",
            Keyword::VotingDelay => b"voting-delay",
            Keyword::ClientVersions => b"client-versions",
            Keyword::ServerVersions => b"server-versions",
            Keyword::KnownFlags => b"known-flags",
            Keyword::FlagThresholds => b"flag-thresholds",
            Keyword::RecommendedClientProtocols => b"recommended-client-protocols",
            Keyword::RecommendedRelayProtocols => b"recommended-relay-protocols",
            Keyword::RequiredClientProtocols => b"required-client-protocols",
            Keyword::RequiredRelayProtocols => b"required-relay-protocols",
            Keyword::Params => b"params",
            Keyword::SharedRandPreviousValue => b"shared-rand-previous-value",
            Keyword::SharedRandCurrentValue => b"shared-rand-current-value",
            Keyword::DirSource => b"dir-source",
            Keyword::Contact => b"contact",
            Keyword::VoteDigest => b"vote-digest",
            Keyword::DirectoryFooter => b"directory-footer",
            Keyword::BandwidthWeights => b"bandwidth-weights",
            Keyword::DirectorySignature => b"directory-signature",
            Keyword::DirKeyCertificateVersion => b"dir-key-certificate-version",
            Keyword::DirAddress => b"dir-address",
            Keyword::Fingerprint => b"fingerprint",
            Keyword::DirIdentityKey => b"dir-identity-key",
            Keyword::DirKeyPublished => b"dir-key-published",
            Keyword::DirKeyExpires => b"dir-key-expires",
            Keyword::DirSigningKey => b"dir-signing-key",
            Keyword::DirKeyCrosscert => b"dir-key-crosscert",
            Keyword::DirKeyCertification => b"dir-key-certification",
            Keyword::ConsensusDigest => b"consensus-digest",
            Keyword::AdditionalDigest => b"additional-digest",
            Keyword::AdditionalSignature => b"additional-signature",
            Keyword::Router => b"router",
            Keyword::IdentityEd25519 => b"identity-ed25519",
            Keyword::MasterKeyEd25519 => b"master-key-ed25519",
            Keyword::Platform => b"platform",
            Keyword::Uptime => b"uptime",
            Keyword::Bandwidth => b"bandwidth",
            Keyword::Hibernating => b"hibernating",
            Keyword::OnionKey => b"onion-key",
            Keyword::SigningKey => b"signing-key",
            Keyword::NtorOnionKey => b"ntor-onion-key",
            Keyword::Accept => b"accept",
            Keyword::Reject => b"reject",
            Keyword::Ipv6Policy => b"ipv6-policy",
            Keyword::Family => b"family",
            Keyword::OrAddress => b"or-address",
            Keyword::TunnelledDirServer => b"tunnelled-dir-server",
            Keyword::Proto => b"proto",
            Keyword::RouterSigEd25519 => b"router-sig-ed25519",
            Keyword::RouterSignature => b"router-signature",
            Keyword::P6 => b"p6",
            Keyword::Station => b"station",
            Keyword::Own => b"own",
            Keyword::Schedule => b"schedule",
            Keyword::Authority => b"authority",
            Keyword::Rule => b"rule",
            Keyword::Measured => b"measured",
            Keyword::EndStation => b"end-station",
            Keyword::FamilyIds => b"family-ids",
        }
    }

    /// Whether two keywords are one.
    #[tactic(auto, unfolding(crate::specs::Keywords::same))]
    pub fn same(self, other: Keyword) -> bool
        ensures { result ≡ same self other }
    {
        self == other
    }
}
