// Digests of fixed length.
ghost use Rattle.std.specs.Prelude.{◌≡◌, ◌+◌, ◌≤◌, ◌++◌, IsOk, OnOk, OnErr, length, vec_len, vec_capacity};
ghost use Rattle.dir_values.specs.Refusals.{or_bad_value};

use crate::refusal::ValueRefusal;
use dir_bytes::{Memory, push_base64, push_hex_upper, read_base64, read_hex};

/// A SHA-1 of a relay's or an authority's identity key, which names it. Its text is 40 hex digits.
#[derive(Clone, Copy, Debug, PartialEq, Eq, PartialOrd, Ord)]
pub struct Fingerprint(pub [u8; 20]);

/// A SHA-1 digest. Its text is base64 without `=`, of 27 characters; the digest of a signing key in a
/// `directory-signature` is 40 hex digits instead.
#[derive(Clone, Copy, Debug, PartialEq, Eq, PartialOrd, Ord)]
pub struct Digest1(pub [u8; 20]);

/// A SHA-256 digest. Its text is base64 without `=`, of 43 characters.
#[derive(Clone, Copy, Debug, PartialEq, Eq, PartialOrd, Ord)]
pub struct Digest2(pub [u8; 32]);

impl Fingerprint {
    ghost use Rattle.dir_values.specs.Digests as digests;

    /// The fingerprint that the text spells, in digits of either case. `BadValue`, at place 0, for any other text.
    pub fn read(text: &[u8]) -> Result<Fingerprint, ValueRefusal>
        ensures { result ≡ or_bad_value (digests.fingerprint text.now) }
    {
        let mut bytes = [0u8; 20];
        match read_hex(text, &mut bytes) {
            Ok(()) => Ok(Fingerprint(bytes)),
            Err(_) => Err(ValueRefusal::BadValue { place: 0 }),
        }
    }

    /// Appends the text, in upper case. Without memory `out` stays as it was.
    pub fn push(&self, out: &mut Vec<u8>) -> Result<(), Memory>
        ensures ok { OnOk result (out.new.items ≡ out.old.items ++ digests.fingerprint_text self.now) }
        ensures err { OnErr result (out.new.items ≡ out.old.items) }
        ensures room { vec_len out.old + length (digests.fingerprint_text self.now) ≤ vec_capacity out.old → IsOk result }
        ensures capacity { vec_capacity out.old ≤ vec_capacity out.new }
    {
        push_hex_upper(out, &self.0)
    }

    /// Whether this fingerprint comes before another, by their bytes.
    pub fn is_below(&self, other: &Fingerprint) -> bool
        ensures { result ≡ digests.identity_below self.now other.now }
    {
        self.0.as_slice().cmp(other.0.as_slice()).is_lt()
    }

    /// Whether both are one fingerprint.
    pub fn is_same(&self, other: &Fingerprint) -> bool
        ensures { result ≡ digests.same_identity self.now other.now }
    {
        self.0 == other.0
    }
}

impl Digest1 {
    ghost use Rattle.dir_values.specs.Digests as digests;

    /// The digest of a signing key that 40 hex digits spell, of either case, as they stand in a `directory-signature`.
    /// `BadValue`, at place 0, for any other text.
    pub fn read_hex(text: &[u8]) -> Result<Digest1, ValueRefusal>
        ensures { result ≡ or_bad_value (digests.key_digest text.now) }
    {
        let mut bytes = [0u8; 20];
        match read_hex(text, &mut bytes) {
            Ok(()) => Ok(Digest1(bytes)),
            Err(_) => Err(ValueRefusal::BadValue { place: 0 }),
        }
    }

    /// The digest that the text spells. `BadValue`, at place 0, for any other text.
    pub fn read(text: &[u8]) -> Result<Digest1, ValueRefusal>
        ensures { result ≡ or_bad_value (digests.digest1 text.now) }
    {
        let mut bytes = [0u8; 20];
        match read_base64(text, &mut bytes) {
            Ok(()) => Ok(Digest1(bytes)),
            Err(_) => Err(ValueRefusal::BadValue { place: 0 }),
        }
    }

    /// Appends the text. Without memory `out` stays as it was.
    pub fn push(&self, out: &mut Vec<u8>) -> Result<(), Memory>
        ensures ok { OnOk result (out.new.items ≡ out.old.items ++ digests.digest1_text self.now) }
        ensures err { OnErr result (out.new.items ≡ out.old.items) }
        ensures room { vec_len out.old + length (digests.digest1_text self.now) ≤ vec_capacity out.old → IsOk result }
        ensures capacity { vec_capacity out.old ≤ vec_capacity out.new }
    {
        push_base64(out, &self.0)
    }
}

impl Digest2 {
    ghost use Rattle.dir_values.specs.Digests as digests;

    /// The digest that the text spells. `BadValue`, at place 0, for any other text.
    pub fn read(text: &[u8]) -> Result<Digest2, ValueRefusal>
        ensures { result ≡ or_bad_value (digests.digest2 text.now) }
    {
        let mut bytes = [0u8; 32];
        match read_base64(text, &mut bytes) {
            Ok(()) => Ok(Digest2(bytes)),
            Err(_) => Err(ValueRefusal::BadValue { place: 0 }),
        }
    }

    /// Appends the text. Without memory `out` stays as it was.
    pub fn push(&self, out: &mut Vec<u8>) -> Result<(), Memory>
        ensures ok { OnOk result (out.new.items ≡ out.old.items ++ digests.digest2_text self.now) }
        ensures err { OnErr result (out.new.items ≡ out.old.items) }
        ensures room { vec_len out.old + length (digests.digest2_text self.now) ≤ vec_capacity out.old → IsOk result }
        ensures capacity { vec_capacity out.old ≤ vec_capacity out.new }
    {
        push_base64(out, &self.0)
    }
}
