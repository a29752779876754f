// What a vote of a rehearsal says.
ghost use Rattle.std.specs.Prelude.{◌≡◌, [], IfOk};
ghost use Rattle.vote_rehearsal.specs.Certificates.{certificate_of};
ghost use Rattle.vote_rehearsal.specs.Votes as votes;

use crate::authority::Authority;
use crate::entry::{entries_of, only_method};
use crate::names::numbered;
use crate::relay::Relay;
use authority_certs::Cert;
use dir_bytes::{Memory, Text};
use dir_values::{Algorithm, Digest1};
use flag_rules::Flags;
use sha1::Sha1;
use sha2::Digest;
use std::alloc::Global;
use vote_terms::{SignatureFacts, VoteFacts, VoteLists};

/// 2026-01-01 00:00:00 UTC, in seconds since 1970-01-01 00:00:00 UTC, when the period begins.
pub(crate) const PERIOD: u64 = 1_767_225_600;

/// The flags that each vote knows.
fn known_flags() -> Flags
    ensures { result ≡ votes.known_flags }
{
    Flags {
        bad_exit: false,
        exit: true,
        fast: false,
        guard: true,
        hs_dir: false,
        middle_only: true,
        running: true,
        stable: false,
        stale_desc: false,
        sybil: false,
        v2_dir: false,
        valid: true,
    }
}

/// The nickname of the authority with a number.
fn nickname_of(alloc: Global, number: u8) -> Result<Text, Memory>
    ensures { IfOk result (λ name. name ≡ votes.nickname_of number) }
{
    Ok(Text::new(numbered(alloc, b"auth", number as u32)?))
}

/// The name of the host of the authority with a number.
fn host_of(alloc: Global, number: u8) -> Result<Text, Memory>
    ensures { IfOk result (λ name. name ≡ votes.host_of number) }
{
    let mut name = numbered(alloc, b"auth", number as u32)?;
    name.extend_from_slice(b".example")?;
    Ok(Text::new(name))
}

/// No lists.
fn no_lists() -> VoteLists
    ensures { result ≡ votes.no_lists }
{
    VoteLists {
        client_versions: None,
        server_versions: None,
        recommended_client_protocols: None,
        recommended_relay_protocols: None,
        required_client_protocols: None,
        required_relay_protocols: None,
        params: None,
    }
}

/// Who signs, as the certificate says, without a signature.
fn no_signature(alloc: Global, cert: &Cert) -> SignatureFacts
    ensures { result ≡ votes.signature_by cert.now [] }
{
    SignatureFacts {
        algorithm: Algorithm::Sha1,
        identity: cert.fingerprint,
        key_digest: Digest1(Sha1::digest(cert.signing_key.as_bytes())),
        signature: Text::new(Vec::new(alloc)),
    }
}

/// What the vote of an authority says with its certificate, before it is signed.
///
/// # Errors
/// `Memory` is want of memory.
#[tactic(auto, unfolding(crate::specs::Votes::facts_of))]
pub(crate) fn facts_of(
    alloc: Global,
    relays: &[Relay],
    authority: &Authority,
    certificate: Cert,
) -> Result<VoteFacts, Memory>
    requires { certificate ≡ certificate_of authority.now }
    ensures { IfOk result (λ facts. facts ≡ votes.facts_of relays.now authority.now) }
{
    let signature = no_signature(alloc, &certificate);
    Ok(VoteFacts {
        methods: Some(only_method(alloc)?),
        published: 1_767_225_000,
        valid_after: PERIOD,
        fresh_until: 1_767_229_200,
        valid_until: 1_767_236_400,
        vote_seconds: 300,
        dist_seconds: 300,
        known_flags: known_flags().names(alloc)?,
        flag_thresholds: None,
        lists: no_lists(),
        nickname: nickname_of(alloc, authority.number)?,
        identity: authority.identity,
        address: host_of(alloc, authority.number)?,
        ip: 3_221_225_984 + authority.number as u32,
        dir_port: 80,
        or_port: 443,
        contact: None,
        random_previous: None,
        random_current: None,
        certificate,
        entries: entries_of(alloc, relays, authority.number)?,
        signature,
    })
}
