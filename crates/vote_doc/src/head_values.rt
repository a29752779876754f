// What a vote says in values that are kept with it.
ghost use Rattle.std.specs.Prelude.{◌≡◌, ◌<◌, ◌^◌, IfOk, length};
ghost use Rattle.vote_doc.specs.Facts as facts;

use crate::head::Head;
use authority_certs::{Cert, cert_at};
use dir_bytes::Memory;
use dir_values::{Algorithm, FlagSet};
use frame_values::{VoteSignature, decode_part, part};
use std::alloc::Global;
use vote_entries::set_of;
use vote_terms::{SignatureFacts, VoteLists, vote_lists};

/// What a vote says in values of their own.
#[derive(Debug, Drop)]
pub(crate) struct HeadValues {
    /// The flags that it knows.
    pub known_flags: FlagSet,
    /// Its versions, protocols and params.
    pub lists: VoteLists,
    /// The authority's certificate.
    pub certificate: Cert,
    /// The signature.
    pub signature: SignatureFacts,
}

/// The hash of a signature that names this one, or none.
fn algorithm(named: Option<Algorithm>) -> Algorithm
    ensures { result ≡ facts.algorithm_of named }
{
    match named {
        Some(algorithm) => algorithm,
        None => Algorithm::Sha1,
    }
}

/// What the signature says that was kept.
///
/// # Errors
/// `Memory` is want of memory.
fn signature(alloc: Global, bytes: &[u8], kept: &VoteSignature) -> Result<SignatureFacts, Memory>
    ensures { IfOk result (λ found. found ≡ facts.signature_facts bytes.now kept.now) }
{
    Ok(SignatureFacts {
        algorithm: algorithm(kept.algorithm),
        identity: kept.identity,
        key_digest: kept.key_digest,
        signature: decode_part(alloc, bytes, kept.signature)?,
    })
}

/// The values of a vote of which this was kept.
///
/// # Errors
/// `Memory` is want of memory.
pub(crate) fn values_of(alloc: Global, bytes: &[u8], head: &Head) -> Result<HeadValues, Memory>
    requires { length bytes.now < 2 ^ 62 }
    ensures { IfOk result (λ values. values ≡ facts.values_of bytes.now head.now) }
{
    Ok(HeadValues {
        known_flags: set_of(alloc, part(bytes, head.known_flags))?,
        lists: vote_lists(alloc, bytes, &head.lists)?,
        certificate: cert_at(alloc, bytes, &head.certificate)?,
        signature: signature(alloc, bytes, &head.signature)?,
    })
}
