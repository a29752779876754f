// A signature that was checked.
ghost use Rattle.std.specs.Prelude.{◌≡◌, ◌≤◌, IfOk, length, true};
ghost use Rattle.sha1.specs.Sha1.{sha1};
ghost use Rattle.key_port.specs.declared.verifier.KeyKind.TheVariants as kind;
ghost use Rattle.period_terms.specs.{Advances.algorithm_of, SignIns.line_of, Offered.offered_signature};

use crate::short_bytes::ShortBytes;
use consensus_terms::{Flavour, SignatureLine};
use dir_bytes::{Memory, Text};
use dir_values::{Digest1, Fingerprint};
use key_port::Verifier;
use std::alloc::Global;
use std::marker::{Model, PhantomData};

/// A signature that a verifier may accept over a digest, by the key whose digest it names.
#[derive(Drop)]
pub struct CheckedSig<V: Verifier> {
    line: SignatureLine,
    key: Text,
    flavour: Flavour,
    valid_after: u64,
    digest: ShortBytes,
    verifier: PhantomData<V>,
}

impl<V: Verifier> Model for CheckedSig<V> {
    ghost use Rattle.std.specs.Prelude.{◌≡◌, true};
    ghost use Rattle.sha1.specs.Sha1.{sha1};
    ghost use Rattle.key_port.specs.declared.verifier.KeyKind.TheVariants as kind;
    ghost use Rattle.period_terms.specs.{Advances.algorithm_of, declared.signature.OfferedSignature.OfferedSignature};

    ghost Value = { OfferedSignature };

    ghost view = { λ s. record {
      authority = s.line.identity;
      key = s.key;
      key_digest = s.line.key_digest;
      flavour = s.flavour;
      valid_after = s.valid_after;
      digest = s.digest;
      signature = s.line.signature;
    } };

    ghost invariant = { λ s. (V.may_accept kind.Signing s.key s.digest s.line.signature ≡ true)
        × (s.line.algorithm ≡ algorithm_of s.flavour) × (s.line.key_digest.0 ≡ sha1 s.key) };
}

impl<V: Verifier> CheckedSig<V> {
    /// A signature over this digest of a flavour that the verifier may accept by this key, whose digest the line names.
    ///
    /// # Errors
    /// `Memory` is want of memory.
    pub fn of(
        alloc: Global,
        valid_after: u64,
        flavour: Flavour,
        digest: &[u8],
        key: &[u8],
        line: &SignatureLine,
    ) -> Result<CheckedSig<V>, Memory>
        requires short { length digest.now ≤ 52 }
        requires algorithm { line.now.algorithm ≡ algorithm_of flavour }
        requires named { line.now.key_digest.0 ≡ sha1 key.now }
        requires accepted { V.may_accept kind.Signing key.now digest.now line.now.signature ≡ true }
        ensures { IfOk result (λ sig. sig ≡ offered_signature valid_after flavour digest.now key.now line.now) }
    {
        Ok(CheckedSig {
            line: line.copy(alloc)?,
            key: Text::copy_of(alloc, key)?,
            flavour,
            valid_after,
            digest: ShortBytes::of(digest),
            verifier: PhantomData,
        })
    }

    /// Who signed.
    pub fn authority(&self) -> Fingerprint
        ensures { result ≡ self.now.authority }
    {
        self.line.identity
    }

    /// The key that it was checked with.
    pub fn key(&self) -> &[u8]
        ensures { result.now ≡ self.now.key }
    {
        self.key.as_bytes()
    }

    /// The digest of that key.
    pub fn key_digest(&self) -> Digest1
        ensures value { result ≡ self.now.key_digest }
        ensures named { self.now.key_digest.0 ≡ sha1 self.now.key }
    {
        self.line.key_digest
    }

    /// The flavour of what was signed.
    pub fn flavour(&self) -> Flavour
        ensures { result ≡ self.now.flavour }
    {
        self.flavour
    }

    /// When the period begins that it is for.
    pub fn valid_after(&self) -> u64
        ensures { result ≡ self.now.valid_after }
    {
        self.valid_after
    }

    /// The digest that was signed.
    pub fn digest(&self) -> &[u8]
        ensures { result.now ≡ self.now.digest }
    {
        self.digest.as_bytes()
    }

    /// The signature: one that the verifier may accept by the key over the digest.
    pub fn signature(&self) -> &[u8]
        ensures value { result.now ≡ self.now.signature }
        ensures accepted { V.may_accept kind.Signing self.now.key self.now.digest self.now.signature ≡ true }
    {
        self.line.signature.as_bytes()
    }

    /// The line, and the digest that was signed: a signature that the verifier may accept by the key that the line names.
    pub fn into_parts(self) -> (SignatureLine, ShortBytes)
        ensures line { result.0 ≡ line_of self }
        ensures digest { result.1 ≡ self.digest }
        ensures accepted { V.may_accept kind.Signing self.key self.digest self.signature ≡ true }
        ensures named { self.key_digest.0 ≡ sha1 self.key }
    {
        (self.line, self.digest)
    }
}
