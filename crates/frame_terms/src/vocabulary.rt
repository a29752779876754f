// Finding the keyword of a text.
ghost use Rattle.std.specs.Prelude.{◌≡◌, ℕ, List, ◌∷◌};
ghost use Rattle.frame_terms.specs.Keywords.{word_of, among};

use crate::keyword::Keyword;

const A_WORDS: [Keyword; 5] = [
    Keyword::A,
    Keyword::AdditionalDigest,
    Keyword::AdditionalSignature,
    Keyword::Accept,
    Keyword::Authority,
];

const B_WORDS: [Keyword; 2] = [Keyword::BandwidthWeights, Keyword::Bandwidth];

const C_WORDS: [Keyword; 5] = [
    Keyword::ConsensusMethods,
    Keyword::ConsensusMethod,
    Keyword::ClientVersions,
    Keyword::Contact,
    Keyword::ConsensusDigest,
];

const D_WORDS: [Keyword; 11] = [
    Keyword::DirSource,
    Keyword::DirectoryFooter,
    Keyword::DirectorySignature,
    Keyword::DirKeyCertificateVersion,
    Keyword::DirAddress,
    Keyword::DirIdentityKey,
    Keyword::DirKeyPublished,
    Keyword::DirKeyExpires,
    Keyword::DirSigningKey,
    Keyword::DirKeyCrosscert,
    Keyword::DirKeyCertification,
];

const E_WORDS: [Keyword; 1] = [Keyword::EndStation];

const F_WORDS: [Keyword; 5] = [
    Keyword::FreshUntil,
    Keyword::FlagThresholds,
    Keyword::Fingerprint,
    Keyword::Family,
    Keyword::FamilyIds,
];

const H_WORDS: [Keyword; 1] = [Keyword::Hibernating];

const I_WORDS: [Keyword; 3] = [Keyword::Id, Keyword::IdentityEd25519, Keyword::Ipv6Policy];

const K_WORDS: [Keyword; 1] = [Keyword::KnownFlags];

const M_WORDS: [Keyword; 3] = [Keyword::M, Keyword::MasterKeyEd25519, Keyword::Measured];

const N_WORDS: [Keyword; 2] = [Keyword::NetworkStatusVersion, Keyword::NtorOnionKey];

const O_WORDS: [Keyword; 3] = [Keyword::OnionKey, Keyword::OrAddress, Keyword::Own];

const P_WORDS: [Keyword; 7] = [
    Keyword::Pr,
    Keyword::P,
    Keyword::Published,
    Keyword::Params,
    Keyword::Platform,
    Keyword::Proto,
    Keyword::P6,
];

const R_WORDS: [Keyword; 10] = [
    Keyword::R,
    Keyword::RecommendedClientProtocols,
    Keyword::RecommendedRelayProtocols,
    Keyword::RequiredClientProtocols,
    Keyword::RequiredRelayProtocols,
    Keyword::Router,
    Keyword::Reject,
    Keyword::RouterSigEd25519,
    Keyword::RouterSignature,
    Keyword::Rule,
];

const S_WORDS: [Keyword; 7] = [
    Keyword::S,
    Keyword::ServerVersions,
    Keyword::SharedRandPreviousValue,
    Keyword::SharedRandCurrentValue,
    Keyword::SigningKey,
    Keyword::Station,
    Keyword::Schedule,
];

const T_WORDS: [Keyword; 1] = [Keyword::TunnelledDirServer];

const U_WORDS: [Keyword; 1] = [Keyword::Uptime];

const V_WORDS: [Keyword; 6] = [
    Keyword::V,
    Keyword::VoteStatus,
    Keyword::ValidAfter,
    Keyword::ValidUntil,
    Keyword::VotingDelay,
    Keyword::VoteDigest,
];

const W_WORDS: [Keyword; 1] = [Keyword::W];

/// The keywords that begin with this byte.
#[tactic(auto, unfolding(crate::specs::Keywords::word_of))]
fn beginning_with(first: u8) -> &'static [Keyword]
    ensures { (more : List ℕ) → word_of (first ∷ more) ≡ among (first ∷ more) result.now }
{
    match first {
        b'a' => &A_WORDS,
        b'b' => &B_WORDS,
        b'c' => &C_WORDS,
        b'd' => &D_WORDS,
        b'e' => &E_WORDS,
        b'f' => &F_WORDS,
        b'h' => &H_WORDS,
        b'i' => &I_WORDS,
        b'k' => &K_WORDS,
        b'm' => &M_WORDS,
        b'n' => &N_WORDS,
        b'o' => &O_WORDS,
        b'p' => &P_WORDS,
        b'r' => &R_WORDS,
        b's' => &S_WORDS,
        b't' => &T_WORDS,
        b'u' => &U_WORDS,
        b'v' => &V_WORDS,
        b'w' => &W_WORDS,
        _ => &[],
    }
}

/// The keyword of a list that has this text.
fn among(text: &[u8], words: &[Keyword]) -> Option<Keyword>
    ensures { result ≡ among text.now words.now }
{
    words.iter().copied().find(|word| text == word.text())
}

/// The keyword that has this text, if there is one.
#[tactic(auto, unfolding(crate::specs::Keywords::word_of))]
pub fn keyword_of(text: &[u8]) -> Option<Keyword>
    ensures { result ≡ word_of text.now }
{
    match text {
        [] => None,
        [first, ..] => among(text, beginning_with(*first)),
    }
}
