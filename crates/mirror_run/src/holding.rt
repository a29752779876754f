// What a mirror holds, and what it wants.
use anyhow::{Result, bail};
use consensus_terms::SignedConsensus;
use hex::encode;
use key_port::TestKeys;
use mirror_core::Mirror;
use sha2::{Digest, Sha256};
use std::alloc::Global;

// The SHA-256 of a text.
fn digest_text(alloc: Global, text: &[u8]) -> Result<String> {
    Ok(encode(alloc, &Sha256::digest(text))?)
}

/// How many digests are wanted, and the SHA-256 of these, one behind the other.
pub fn wanted_text(alloc: Global, mirror: &Mirror<TestKeys>) -> Result<String> {
    let Ok(wanted) = mirror.wanted() else {
        bail!("no memory");
    };
    let mut hasher = Sha256::new();
    for digest in &wanted {
        hasher.update(&digest.0);
    }
    let count = wanted.len();
    let all = encode(alloc, &hasher.finalize())?;
    Ok(format!(in alloc; "{count} {all}")?)
}

// How many of the microdescriptors that a consensus names are held.
fn micros_of(mirror: &Mirror<TestKeys>, consensus: &SignedConsensus) -> u64 {
    let mut count = 0u64;
    for router in consensus.facts.routers.as_slice() {
        let held = match &router.m {
            Some(digest) => mirror.micro(digest).is_some(),
            None => false,
        };
        count = count.saturating_add(held as u64);
    }
    count
}

// How many microdescriptors are held.
fn micros(alloc: Global, mirror: &Mirror<TestKeys>) -> Result<u64> {
    let Some(bytes) = mirror.consensus() else {
        return Ok(0);
    };
    if bytes.len() > 100_000_000 {
        bail!("the consensus is long");
    }
    match consensus_doc::read(alloc, bytes) {
        Ok((consensus, _)) => Ok(micros_of(mirror, &consensus)),
        Err(_) => bail!("no consensus"),
    }
}

// The SHA-256 of the consensus, if one is held.
fn consensus_text(alloc: Global, mirror: &Mirror<TestKeys>) -> Result<String> {
    match mirror.consensus() {
        Some(bytes) => digest_text(alloc, bytes),
        None => Ok(String::from_str(alloc, "none")?),
    }
}

/// The SHA-256 of the consensus and of the certificates, and how many microdescriptors are held.
pub fn held_text(alloc: Global, mirror: &Mirror<TestKeys>) -> Result<String> {
    let consensus = consensus_text(alloc, mirror)?;
    let Ok(certs) = mirror.certs() else {
        bail!("no memory");
    };
    let certs = digest_text(alloc, &certs)?;
    let micros = micros(alloc, mirror)?;
    Ok(format!(in alloc; "{consensus} certs {certs} micros {micros}")?)
}
