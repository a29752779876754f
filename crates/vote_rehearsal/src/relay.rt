// A relay of a rehearsal.
ghost use Rattle.std.specs.Prelude.{◌≡◌, IfOk};
ghost use Rattle.sha1.specs.Sha1.{sha1};
ghost use Rattle.sha2.specs.Sha256.{sha256};
ghost use Rattle.vote_rehearsal.specs.Relays as relay_terms;

use crate::names::seeded;
use dir_bytes::Memory;
use dir_values::{Digest1, Digest2, Fingerprint};
use sha1::Sha1;
use sha2::{Digest, Sha256};
use std::alloc::Global;

/// A relay of a rehearsal.
#[derive(Clone, Copy)]
pub(crate) struct Relay {
    /// Its number, from 0.
    pub number: u16,
    /// The number behind which its draws stand.
    pub start: u64,
    /// Its RSA identity.
    pub identity: Fingerprint,
    /// The digest of its descriptor.
    pub digest: Digest1,
    /// Its Ed25519 identity key.
    pub ed: [u8; 32],
    /// The digest of its microdescriptor.
    pub micro: Digest2,
}

/// The SHA-1 of a word, a number and the seed.
///
/// # Errors
/// `Memory` is want of memory.
fn sha1_of(alloc: Global, word: &[u8], number: u16, seed: u64) -> Result<[u8; 20], Memory>
    ensures { IfOk result (λ digest. digest ≡ sha1 (relay_terms.seeded_word word.now number seed)) }
{
    let text = seeded(alloc, word, number as u32, seed)?;
    Ok(Sha1::digest(&text))
}

/// The SHA-256 of a word, a number and the seed.
///
/// # Errors
/// `Memory` is want of memory.
fn sha256_of(alloc: Global, word: &[u8], number: u16, seed: u64) -> Result<[u8; 32], Memory>
    ensures { IfOk result (λ digest. digest ≡ sha256 (relay_terms.seeded_word word.now number seed)) }
{
    let text = seeded(alloc, word, number as u32, seed)?;
    Ok(Sha256::digest(&text))
}

/// The relay with a number, whose draws stand behind this one.
///
/// # Errors
/// `Memory` is want of memory.
pub(crate) fn relay_at(alloc: Global, seed: u64, number: u16, start: u64) -> Result<Relay, Memory>
    ensures { IfOk result (λ relay. relay ≡ relay_terms.relay_at seed number start) }
{
    Ok(Relay {
        number,
        start,
        identity: Fingerprint(sha1_of(alloc, b"relay-", number, seed)?),
        digest: Digest1(sha1_of(alloc, b"desc-", number, seed)?),
        ed: sha256_of(alloc, b"ed-", number, seed)?,
        micro: Digest2(sha256_of(alloc, b"micro-", number, seed)?),
    })
}
