// A digest, or two of them, in place.
ghost use Rattle.std.specs.Prelude.{◌≡◌, ◌≤◌, ◌+◌, ◌++◌, length, take};

use std::marker::Model;

/// At most 52 bytes, as of a SHA-1 and a SHA-256. It takes no memory.
#[derive(Drop)]
pub struct ShortBytes {
    bytes: [u8; 52],
    used: u8,
}

impl Model for ShortBytes {
    ghost use Rattle.std.specs.Prelude.{List, ℕ, take, ◌≤◌};

    ghost Value = { List ℕ };

    ghost view = { λ s. take s.used s.bytes };

    ghost invariant = { λ s. s.used ≤ 52 };
}

impl ShortBytes {
    /// At most 52 bytes.
    pub fn of(bytes: &[u8]) -> ShortBytes
        requires { length bytes.now ≤ 52 }
        ensures { result ≡ bytes.now }
    {
        let mut all = [0u8; 52];
        all[..bytes.len()].copy_from_slice(bytes);
        ShortBytes {
            bytes: all,
            used: bytes.len() as u8,
        }
    }

    /// A SHA-1, and a SHA-256 behind it.
    pub fn of_two(first: &[u8; 20], second: &[u8; 32]) -> ShortBytes
        ensures { result ≡ first.now ++ second.now }
    {
        let mut bytes = [0u8; 52];
        let (front, back) = bytes.split_at_mut(20);
        front.copy_from_slice(first);
        back.copy_from_slice(second);
        ShortBytes { bytes, used: 52 }
    }

    /// The bytes.
    pub fn as_bytes(&self) -> &[u8]
        ensures { result.now ≡ self.now }
    {
        &self.bytes[..self.used as usize]
    }
}
