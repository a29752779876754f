// The test scheme as a verifier and a signer. It takes no memory but a signature's.
ghost use Rattle.std.specs.Prelude.{◌≡◌, ◌≤◌, ◌++◌, IfOk, length, not};
ghost use Rattle.hex.specs.Hex.{IsBytes};
ghost use Rattle.key_port.specs.{Answers.{AnswersBy, CountsAnswers}, Signing.{CountsSigning, GivesBy}};
ghost use Rattle.key_port.specs.TestScheme as scheme;

use crate::signer::{SignAnswer, Signer, signature_text};
use crate::verifier::{KeyKind, Verifier, VerifyAnswer};
use dir_bytes::{Memory, Text};
use sha2::{Digest, Sha256};
use std::alloc::Global;

/// The test scheme: a signature is the SHA-256 of `test-sig`, the key and the message, for Ed25519 twice. Anyone can
/// make one. The calls whose numbers, from 1, stand in `failing` fail; one count serves both kinds of calls, to verify and
/// to sign.
#[derive(Drop)]
pub struct TestKeys {
    failing: Vec<u64>,
    calls: u64,
    faults: u64,
}

impl TestKeys {
    /// Keys of which nothing was asked.
    pub fn new(failing: Vec<u64>) -> TestKeys
        ensures { scheme.IsFreshKeys failing.items result }
    {
        TestKeys {
            failing,
            calls: 0,
            faults: 0,
        }
    }

    /// How often the keys have failed. The count stands still at the last `u64`.
    pub fn faults(&self) -> u64
        ensures { result ≡ ⟦<TestKeys as Verifier>⟧.faults self.now }
    {
        self.faults
    }
}

// The digest of `test-sig`, the key and the message.
fn test_digest(key: &[u8], message: &[u8]) -> [u8; 32]
    ensures { result ≡ scheme.test_digest key.now message.now }
{
    let mut hasher = Sha256::new();
    hasher.update(b"test-sig");
    hasher.update(key);
    hasher.update(message);
    hasher.finalize()
}

// A digest two times.
fn twice(digest: &[u8; 32]) -> [u8; 64]
    ensures { result ≡ digest.now ++ digest.now }
{
    let mut both = [0u8; 64];
    let (front, back) = both.split_at_mut(32);
    front.copy_from_slice(digest);
    back.copy_from_slice(digest);
    both
}

// Whether this is the signature of the message by the key.
fn is_test_signature(kind: KeyKind, key: &[u8], message: &[u8], signature: &[u8]) -> bool
    ensures { result ≡ scheme.is_test_signature kind key.now message.now signature.now }
{
    let digest = test_digest(key, message);
    match kind {
        KeyKind::Identity | KeyKind::Signing => signature == digest.as_slice(),
        KeyKind::Ed25519 => signature == twice(&digest).as_slice(),
    }
}

impl Verifier for TestKeys {
    ghost may_accept = { λ kind key message signature. scheme.is_test_signature kind key message signature };

    ghost may_refuse = { λ kind key message signature. not (scheme.is_test_signature kind key message signature) };

    ghost faults = { λ s. s.faults };

    ghost steps = { λ before kind key message signature answer after. scheme.IsNextKeys before after answer };

    fn verify(
        &mut self,
        kind: KeyKind,
        key: &[u8],
        message: &[u8],
        signature: &[u8],
    ) -> VerifyAnswer
        ensures answer { AnswersBy (scheme.is_test_signature kind key.now message.now signature.now) (not (scheme.is_test_signature kind key.now message.now signature.now)) result }
        ensures cause { CountsAnswers self.old.faults self.new.faults result }
        ensures fails { scheme.FailsByNumber self.old result }
        ensures step { scheme.IsNextKeys self.old self.new result }
    {
        self.calls = self.calls.saturating_add(1);
        if self.failing.contains(&self.calls) {
            self.faults = self.faults.saturating_add(1);
            return VerifyAnswer::Fault;
        }
        if is_test_signature(kind, key, message, signature) {
            VerifyAnswer::Yes
        } else {
            VerifyAnswer::No
        }
    }
}

// The signature of a message by a key.
fn signature_of(alloc: Global, kind: KeyKind, key: &[u8], message: &[u8]) -> Result<Text, Memory>
    ensures value { IfOk result (λ text. text ≡ scheme.test_signature kind key.now message.now) }
    ensures within { IfOk result (λ text. length text ≤ 64) }
    ensures bytes { IfOk result IsBytes }
{
    let digest = test_digest(key, message);
    match kind {
        KeyKind::Identity | KeyKind::Signing => signature_text(alloc, &digest),
        KeyKind::Ed25519 => signature_text(alloc, &twice(&digest)),
    }
}

impl Signer for TestKeys {
    ghost may_give = { λ kind key message signature. scheme.is_test_signature kind key message signature };

    ghost faults = { λ s. s.faults };

    ghost steps = { λ before kind key message answer after. scheme.IsNextSigner before after answer };

    fn sign(&mut self, alloc: Global, kind: KeyKind, key: &[u8], message: &[u8]) -> SignAnswer
        ensures answer { GivesBy (λ signature. scheme.is_test_signature kind key.now message.now signature) result }
        ensures cause { CountsSigning self.old.faults self.new.faults result }
        // The signature is the scheme's.
        ensures signature { scheme.IsSignedByScheme kind key.now message.now result }
        ensures fails { scheme.FailsToSignByNumber self.old result }
        ensures step { scheme.IsNextSigner self.old self.new result }
    {
        self.calls = self.calls.saturating_add(1);
        if self.failing.contains(&self.calls) {
            self.faults = self.faults.saturating_add(1);
            return SignAnswer::Fault;
        }
        match signature_of(alloc, kind, key, message) {
            Ok(text) => SignAnswer::Signed(text),
            Err(_) => SignAnswer::Memory,
        }
    }
}
