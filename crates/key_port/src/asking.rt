// One exchange with a key service, over a source and a sink. It takes no memory.
ghost use Rattle.std.specs.{Prelude.{◌≡◌, ◌≤◌, [], ◌∷◌, IsTrue, IfSome, None, false, nat_eq, length}, List.starts_with};
ghost use Rattle.std.specs.Io.KnownBytes.{Consumes, IsAtEnd, Keeps};
ghost use Rattle.dir_bytes.specs.Causes.{Rose};
ghost use Rattle.key_port.specs.{Exchanges.{Asks, Comes, Hears, answer_of, answer_or_fault}, Requests.request_text};
ghost use Rattle.key_port.specs.Requests.{line_limit};

use crate::request::{Line, write_request};
use crate::verifier::{KeyKind, VerifyAnswer};
use dir_bytes::{ReadAnswer, Sink, Source, WriteAll, write_all};

// The next byte, if the source gives one.
pub fn next_byte<S: Source>(source: &mut S) -> Option<u8>
    ensures some { IfSome result (λ byte. Consumes (S.left source.old) (S.left source.new) (byte ∷ [])) }
    ensures end { result ≡ None → ¬ Rose (S.faults source.old) (S.faults source.new) → IsAtEnd (S.left source.old) }
    ensures none { result ≡ None → Keeps (S.left source.old) (S.left source.new) }
    ensures faults { S.faults source.old ≤ S.faults source.new }
{
    let mut byte = [0u8; 1];
    match source.read(&mut byte) {
        ReadAnswer::Got(_) => Some(byte[0]),
        ReadAnswer::End | ReadAnswer::Failed => None,
    }
}

// Whether the next bytes are these. Nothing is read behind the first that is another.
fn gives<S: Source>(source: &mut S, wanted: &[u8]) -> bool
    ensures taken { IsTrue result → Consumes (S.left source.old) (S.left source.new) wanted.now }
    ensures others { result ≡ false → ¬ Rose (S.faults source.old) (S.faults source.new)
        → IfSome (S.left source.old) (λ bytes. starts_with nat_eq bytes wanted.now ≡ false) }
    ensures faults { S.faults source.old ≤ S.faults source.new }
{
    'bytes: for byte in wanted {
        if next_byte(source) != Some(*byte) {
            return false;
        }
    }
    true
}

// The answer that the source gives, or `None` where no byte of one comes.
fn hear<S: Source>(source: &mut S) -> Option<VerifyAnswer>
    ensures read { Hears (S.left source.old) (S.left source.new) (answer_or_fault result) }
    ensures exact { ¬ Rose (S.faults source.old) (S.faults source.new)
        → IfSome (S.left source.old) (λ bytes. answer_or_fault result ≡ answer_of bytes) }
    ensures comes { Comes (S.left source.old) (S.left source.new) result }
    ensures faults { S.faults source.old ≤ S.faults source.new }
{
    match next_byte(source) {
        Some(b'y') if gives(source, b"es\n") => Some(VerifyAnswer::Yes),
        Some(b'n') if gives(source, b"o\n") => Some(VerifyAnswer::No),
        Some(_) => Some(VerifyAnswer::Fault),
        None => None,
    }
}

/// Asks a key service one question over a connection, and hears its answer, or `None` where no byte of one comes. After
/// that, and after a fault, the connection is of no more use.
pub fn exchange<S: Source, K: Sink>(
    source: &mut S,
    sink: &mut K,
    kind: KeyKind,
    key: &[u8],
    message: &[u8],
    signature: &[u8],
) -> Option<VerifyAnswer>
    requires { length (request_text kind key.now message.now signature.now) ≤ line_limit }
    // Where the service answered, exactly the request was written.
    ensures asked { Asks (K.written sink.old) (K.written sink.new) (request_text kind key.now message.now signature.now)
        (answer_or_fault result) }
    // Yes and no were each read as a line.
    ensures heard { Hears (S.left source.old) (S.left source.new) (answer_or_fault result) }
    // Where there is an answer some byte was there to be read, and else none was read.
    ensures comes { Comes (S.left source.old) (S.left source.new) result }
    // Unless the source or the sink failed, the answer is that of the bytes that were left to read.
    ensures exact { ¬ Rose (S.faults source.old) (S.faults source.new) → ¬ Rose (K.faults sink.old) (K.faults sink.new)
        → IfSome (S.left source.old) (λ bytes. answer_or_fault result ≡ answer_of bytes) }
    ensures read_faults { S.faults source.old ≤ S.faults source.new }
    ensures write_faults { K.faults sink.old ≤ K.faults sink.new }
{
    let mut line = Line::new();
    write_request(&mut line, kind, key, message, signature);
    match write_all(sink, line.as_bytes()) {
        WriteAll::Done => hear(source),
        WriteAll::Failed { .. } => None,
    }
}
