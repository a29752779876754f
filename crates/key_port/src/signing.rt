// One exchange with a key service for a signature, over a source and a sink.
ghost use Rattle.std.specs.{Prelude.{◌≡◌, ◌≤◌, [], IsTrue, IfSome, false, true, length, take}, Io.KnownBytes.Consumes};
ghost use Rattle.dir_bytes.specs.Causes.{Rose};
ghost use Rattle.key_port.specs.{Exchanges.Comes, Requests.line_limit, Signing.GivesBy};
ghost use Rattle.key_port.specs.SignedLines as lines;

use crate::asking::next_byte;
use crate::request::Line;
use crate::sign_lines::{signature_of, write_sign_request};
use crate::signer::SignAnswer;
use crate::verifier::KeyKind;
use dir_bytes::{Sink, Source, WriteAll, write_all};
use std::alloc::Global;

// Reads a line, with its NL, of at most 65,536 bytes. Nothing is read behind it.
fn read_line<S: Source>(source: &mut S, line: &mut Line) -> bool
    requires { line.old ≡ [] }
    ensures taken { Consumes (S.left source.old) (S.left source.new) line.new }
    ensures within { length line.new ≤ line_limit }
    ensures ended { IsTrue result → lines.IsLine line.new }
    ensures others { result ≡ false → ¬ Rose (S.faults source.old) (S.faults source.new)
        → IfSome (S.left source.old) (λ bytes. lines.has_no_end (take line_limit bytes) ≡ true) }
    ensures faults { S.faults source.old ≤ S.faults source.new }
{
    'bytes: while !line.is_full() {
        let Some(byte) = next_byte(source) else {
            return false;
        };
        line.add(&[byte]);
        if byte == b'\n' {
            return true;
        }
    }
    false
}

// The signature that the source gives, or `None` where no byte of an answer comes.
fn hear_signature<S: Source>(alloc: Global, source: &mut S) -> Option<SignAnswer>
    ensures read { lines.HearsSignature (S.left source.old) (S.left source.new) (lines.signed_or_fault result) }
    ensures within { GivesBy (λ signature. true) (lines.signed_or_fault result) }
    ensures exact { ¬ Rose (S.faults source.old) (S.faults source.new)
        → IfSome (S.left source.old) (λ bytes. lines.FaultsByBytes bytes (lines.signed_or_fault result)) }
    ensures comes { Comes (S.left source.old) (S.left source.new) result }
    ensures faults { S.faults source.old ≤ S.faults source.new }
{
    let mut line = Line::new();
    if read_line(source, &mut line) {
        return Some(signature_of(alloc, line.as_bytes()));
    }
    if line.as_bytes().is_empty() {
        return None;
    }
    Some(SignAnswer::Fault)
}

/// Asks a key service for one signature over a connection, and hears its answer, or `None` where no byte of one comes.
/// After that, and after a fault, the connection is of no more use.
pub fn exchange_signing<S: Source, K: Sink>(
    alloc: Global,
    source: &mut S,
    sink: &mut K,
    kind: KeyKind,
    key: &[u8],
    message: &[u8],
) -> Option<SignAnswer>
    requires { length (lines.sign_text kind key.now message.now) ≤ line_limit }
    // Where the service answered, exactly the request was written.
    ensures asked { lines.AsksToSign (K.written sink.old) (K.written sink.new) (lines.sign_text kind key.now message.now)
        (lines.signed_or_fault result) }
    // A signature was read as its line.
    ensures heard { lines.HearsSignature (S.left source.old) (S.left source.new) (lines.signed_or_fault result) }
    ensures within { GivesBy (λ signature. true) (lines.signed_or_fault result) }
    // Where there is an answer some byte was there to be read, and else none was read.
    ensures comes { Comes (S.left source.old) (S.left source.new) result }
    // Unless the source or the sink failed, a fault is that of the bytes that were left to read.
    ensures exact { ¬ Rose (S.faults source.old) (S.faults source.new) → ¬ Rose (K.faults sink.old) (K.faults sink.new)
        → IfSome (S.left source.old) (λ bytes. lines.FaultsByBytes bytes (lines.signed_or_fault result)) }
    ensures read_faults { S.faults source.old ≤ S.faults source.new }
    ensures write_faults { K.faults sink.old ≤ K.faults sink.new }
{
    let mut line = Line::new();
    write_sign_request(&mut line, kind, key, message);
    match write_all(sink, line.as_bytes()) {
        WriteAll::Done => hear_signature(alloc, source),
        WriteAll::Failed { .. } => None,
    }
}
