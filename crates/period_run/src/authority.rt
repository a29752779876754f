// The authorities that votes and signatures come from.
use anyhow::{Context, Result, bail};
use base64::engine::general_purpose::STANDARD;
use dir_bytes::Text;
use dir_values::Fingerprint;
use hex::encode_upper;
use key_port::{KeyKind, SignAnswer, Signer, TestKeys};
use sha1::Sha1;
use std::alloc::{AllocError, Global};
use std::fs;

/// An authority of the test scheme.
#[derive(Drop)]
pub struct Authority {
    /// Its identity.
    pub identity: Fingerprint,
    /// Its signing key.
    pub key: String,
    /// Its vote before the signature, with words for its two moments.
    pub vote: String,
}

// The identity that a vote names.
fn identity_in(vote: &str) -> Result<Fingerprint> {
    let (_, rest) = vote.split_once("\nfingerprint ").context("no identity")?;
    let (identity, _) = rest.split_once("\n").context("no identity")?;
    match Fingerprint::read(identity.as_bytes()) {
        Ok(identity) => Ok(identity),
        Err(_) => bail!("no identity"),
    }
}

/// The authority of a number, whose vote stands in a file.
pub fn authority_of(rt: &HostRuntime, number: &str) -> Result<Authority> {
    let alloc = rt.alloc();
    let vote = fs::read_to_string(rt, &format!(in alloc; "authority-{number}")?)?;
    Ok(Authority {
        identity: identity_in(&vote)?,
        key: format!(in alloc; "sign-{number}")?,
        vote,
    })
}

// The signature of a digest by a signing key.
fn signature_over(alloc: Global, key: &[u8], digest: &[u8]) -> Result<Text> {
    let mut keys = TestKeys::new(Vec::new(alloc));
    match keys.sign(alloc, KeyKind::Signing, key, digest) {
        SignAnswer::Signed(signature) => Ok(signature),
        SignAnswer::Fault | SignAnswer::Memory => bail!("no signature"),
    }
}

// The object that a signature stands in.
fn object_text(alloc: Global, signature: &[u8]) -> Result<String, AllocError> {
    let body = STANDARD.encode(alloc, signature)?;
    format!(in alloc; "-----BEGIN SIGNATURE-----\n{body}\n-----END SIGNATURE-----\n")
}

// Who signed: an authority, and its key.
fn signer_text(alloc: Global, authority: &Authority) -> Result<String, AllocError> {
    let identity = encode_upper(alloc, &authority.identity.0)?;
    let key = encode_upper(alloc, &Sha1::digest(authority.key.as_bytes()))?;
    format!(in alloc; "{identity} {key}")
}

/// What stands behind the keyword of a line of signatures: who signed, and the signature of a digest.
pub fn signed_text(alloc: Global, authority: &Authority, digest: &[u8]) -> Result<String> {
    let signature = signature_over(alloc, authority.key.as_bytes(), digest)?;
    let signer = signer_text(alloc, authority)?;
    let object = object_text(alloc, signature.as_bytes())?;
    Ok(format!(in alloc; "{signer}\n{object}")?)
}
