// The lines by which a key service is asked for a signature, and gives it. They take no memory but the signature's.
ghost use Rattle.std.specs.Prelude.{◌≡◌, ◌↔◌, ◌-◌, ◌/◌, ◌≤◌, List, ℕ, [], IsTrue, true, length, take, drop};
ghost use Rattle.hex.specs.Hex.{IsBytes};
ghost use Rattle.key_port.specs.Requests as requests;
ghost use Rattle.key_port.specs.SignedLines as lines;
ghost use Rattle.key_port.specs.Signing.{GivesBy};

use crate::request::{LINE_LIMIT, Line, hex_size, kind_word};
use crate::signer::{SignAnswer, signature_text};
use crate::verifier::KeyKind;
use std::alloc::Global;

/// Whether a request for a signature has at most 65,536 bytes, with its NL.
#[tactic(auto, using(crate::proofs::Sizes::sizes))]
pub fn sign_request_fits(kind: KeyKind, key: &[u8], message: &[u8]) -> bool
    ensures { IsTrue result ↔ (length (lines.sign_text kind key.now message.now) ≤ requests.line_limit) }
{
    let key = hex_size(key);
    let message = hex_size(message);
    if key > LINE_LIMIT || message > LINE_LIMIT {
        return false;
    }
    8 + kind_word(kind).len() + key + message <= LINE_LIMIT
}

// The line that asks for a signature.
#[tactic(auto, using(crate::proofs::Sizes::sizes), unfolding(crate::specs::SignedLines::sign_text))]
pub fn write_sign_request(line: &mut Line, kind: KeyKind, key: &[u8], message: &[u8])
    requires fits { length (lines.sign_text kind key.now message.now) ≤ requests.line_limit }
    requires empty { line.old ≡ [] }
    ensures { line.new ≡ lines.sign_text kind key.now message.now }
{
    line.add(b"sign ");
    line.add(kind_word(kind));
    line.add(b" ");
    line.add_word(key);
    line.add(b" ");
    line.add_word(message);
    line.add(b"\n");
}

// The line that gives a signature.
#[tactic(auto, using(crate::proofs::Sizes::sizes), unfolding(crate::specs::SignedLines::signed_line))]
fn write_signed(line: &mut Line, signature: &[u8])
    requires fits { length (lines.signed_line signature.now) ≤ requests.line_limit }
    requires empty { line.old ≡ [] }
    ensures { line.new ≡ lines.signed_line signature.now }
{
    line.add(b"ok ");
    line.add_word(signature);
    line.add(b"\n");
}

// What stands between the first three bytes and the last.
fn hex_part(line: &[u8]) -> &[u8]
    ensures { result.now ≡ take (length line.now - 4) (drop 3 line.now) }
{
    if line.len() < 4 {
        return &[];
    }
    &line[3..line.len() - 1]
}

// The bytes that stand in hex in a line, if it is one of a signature.
fn decode_signature(line: &[u8], out: &mut [u8])
    requires { length out.old ≡ (length line.now - 4) / 2 }
    ensures found { (signature : List ℕ) → IsBytes signature → line.now ≡ lines.signed_line signature → out.new ≡ signature }
    ensures len { length out.new ≡ (length line.now - 4) / 2 }
{
    let _decoded = hex::decode_to_slice(hex_part(line), out);
}

// Whether a line gives this signature.
fn is_line_of(line: &[u8], signature: &[u8]) -> bool
    requires { length (lines.signed_line signature.now) ≤ requests.line_limit }
    ensures { IsTrue result ↔ (line.now ≡ lines.signed_line signature.now) }
{
    let mut wanted = Line::new();
    write_signed(&mut wanted, signature);
    line == wanted.as_bytes()
}

// The signature that a line gives.
pub fn signature_of(alloc: Global, line: &[u8]) -> SignAnswer
    requires { length line.now ≤ requests.line_limit }
    ensures given { lines.IsSignedLine line.now result }
    ensures within { GivesBy (λ signature. true) result }
{
    let mut bytes = [0u8; 32766];
    let signature = &mut bytes[..line.len().saturating_sub(4) / 2];
    decode_signature(line, signature);
    if !is_line_of(line, signature) {
        return SignAnswer::Fault;
    }
    match signature_text(alloc, signature) {
        Ok(text) => SignAnswer::Signed(text),
        Err(_) => SignAnswer::Memory,
    }
}
