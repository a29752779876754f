// The line that asks a key service. It takes no memory.
ghost use Rattle.std.specs.Prelude.{◌≡◌, ◌↔◌, ◌+◌, ◌*◌, ◌≤◌, ◌++◌, List, ℕ, [], IsTrue, length, take};
ghost use Rattle.hex.specs.Hex.{encode_lower};
ghost use Rattle.key_port.specs.Requests as requests;

use crate::verifier::KeyKind;
use std::marker::Model;

// How many bytes a line may have, with its NL.
pub const LINE_LIMIT: usize = 65536;

// The word of a key's kind.
pub fn kind_word(kind: KeyKind) -> &'static [u8]
    ensures word { result.now ≡ requests.kind_word kind }
    ensures within { length result.now ≤ 8 }
{
    match kind {
        KeyKind::Identity => b"identity",
        KeyKind::Signing => b"signing",
        KeyKind::Ed25519 => b"ed25519",
    }
}

// How many bytes the hex of these bytes has.
#[tactic(auto, using(crate::proofs::Sizes::sizes))]
pub fn hex_size(bytes: &[u8]) -> usize
    ensures size { result ≡ length (requests.hex_word bytes.now) }
{
    if bytes.is_empty() { 1 } else { 2 * bytes.len() }
}

/// Whether a request has at most 65,536 bytes, with its NL.
#[tactic(auto, using(crate::proofs::Sizes::sizes))]
pub fn request_fits(kind: KeyKind, key: &[u8], message: &[u8], signature: &[u8]) -> bool
    ensures { IsTrue result ↔ (length (requests.request_text kind key.now message.now signature.now) ≤ requests.line_limit) }
{
    let key = hex_size(key);
    let message = hex_size(message);
    let signature = hex_size(signature);
    if key > LINE_LIMIT || message > LINE_LIMIT || signature > LINE_LIMIT {
        return false;
    }
    11 + kind_word(kind).len() + key + message + signature <= LINE_LIMIT
}

// A line that is put together, which contracts see as its bytes.
#[derive(Drop)]
pub struct Line {
    bytes: [u8; 65536],
    len: usize,
    ghost within: { len ≤ 65536 },
}

impl Model for Line {
    ghost Value = { List ℕ };

    ghost view = { λ s. take s.len s.bytes };
}

impl Line {
    // A line of no bytes.
    pub fn new() -> Line
        ensures { result ≡ [] }
    {
        Line {
            bytes: [0; 65536],
            len: 0,
        }
    }

    // The line's bytes.
    pub fn as_bytes(&self) -> &[u8]
        ensures { result.now ≡ self.now }
    {
        &self.bytes[..self.len]
    }

    // Whether no byte more has room.
    pub fn is_full(&self) -> bool
        ensures full { IsTrue result ↔ (length self.now ≡ 65536) }
        ensures within { length self.now ≤ 65536 }
    {
        self.len == 65536
    }

    // Adds bytes at the end.
    pub fn add(&mut self, bytes: &[u8])
        requires { length self.old + length bytes.now ≤ 65536 }
        ensures bytes { self.new ≡ self.old ++ bytes.now }
        ensures len { length self.new ≡ length self.old + length bytes.now }
    {
        let end = self.len + bytes.len();
        self.bytes[self.len..end].copy_from_slice(bytes);
        self.len = end;
    }

    // Adds bytes in lower-case hex at the end.
    pub fn add_hex(&mut self, bytes: &[u8])
        requires { length self.old + 2 * length bytes.now ≤ 65536 }
        ensures bytes { self.new ≡ self.old ++ encode_lower bytes.now }
        ensures len { length self.new ≡ length self.old + 2 * length bytes.now }
    {
        let end = self.len + 2 * bytes.len();
        let _fits = hex::encode_to_slice(bytes, &mut self.bytes[self.len..end]);
        self.len = end;
    }

    // Adds bytes in lower-case hex at the end, or `-` where there are none.
    #[tactic(auto, using(crate::proofs::Sizes::sizes))]
    pub fn add_word(&mut self, bytes: &[u8])
        requires { length self.old + length (requests.hex_word bytes.now) ≤ 65536 }
        ensures bytes { self.new ≡ self.old ++ requests.hex_word bytes.now }
        ensures len { length self.new ≡ length self.old + length (requests.hex_word bytes.now) }
    {
        if bytes.is_empty() {
            self.add(b"-");
        } else {
            self.add_hex(bytes);
        }
    }
}

// The line that asks of these four.
#[tactic(auto, using(crate::proofs::Sizes::sizes), unfolding(crate::specs::Requests::request_text))]
pub fn write_request(line: &mut Line, kind: KeyKind, key: &[u8], message: &[u8], signature: &[u8])
    requires fits { length (requests.request_text kind key.now message.now signature.now) ≤ requests.line_limit }
    requires empty { line.old ≡ [] }
    ensures { line.new ≡ requests.request_text kind key.now message.now signature.now }
{
    line.add(b"verify ");
    line.add(kind_word(kind));
    line.add(b" ");
    line.add_word(key);
    line.add(b" ");
    line.add_word(message);
    line.add(b" ");
    line.add_word(signature);
    line.add(b"\n");
}
