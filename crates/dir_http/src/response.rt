// Responses, and how they are written.
ghost use Rattle.std.specs.Prelude.{◌≡◌, ◌++◌, IsTrue, IfOk, OnOk};
ghost use Rattle.dir_http.specs.Responses as texts;
ghost use Rattle.dir_http.specs.Responses.{WritesResponse, is_code, line_end};

use dir_bytes::{Memory, Sink, WriteAll, push_decimal, write_all};
use http::StatusCode;
use std::alloc::Global;

/// A response.
#[derive(Debug, Drop)]
pub struct Response {
    pub code: u16,
    pub body: Vec<u8>,
}

/// Why a response was not written.
#[derive(Clone, Copy, Debug, PartialEq, Eq)]
pub enum WriteRefusal {
    /// The sink failed after so many bytes.
    WriteFault { sent: u64 },
    /// There was no memory, and nothing was written.
    Memory,
}

/// Appends the bytes.
pub(crate) fn push(out: &mut Vec<u8>, text: &[u8]) -> Result<(), Memory>
    ensures { OnOk result (out.new.items ≡ out.old.items ++ text.now) }
{
    out.extend_from_slice(text)?;
    Ok(())
}

/// Appends the end of a line.
pub(crate) fn push_line_end(out: &mut Vec<u8>) -> Result<(), Memory>
    ensures { OnOk result (out.new.items ≡ out.old.items ++ line_end) }
{
    push(out, b"\r\n")
}

/// Appends the phrase of a code.
fn push_phrase(out: &mut Vec<u8>, code: u16) -> Result<(), Memory>
    requires { IsTrue (is_code code) }
    ensures { OnOk result (out.new.items ≡ out.old.items ++ texts.phrase_of code) }
{
    match StatusCode::from_u16(code) {
        Ok(status) => push(out, status.canonical_reason().unwrap_or("").as_bytes()),
        Err(_) => unreachable!(),
    }
}

/// Appends the first line.
#[tactic(auto, unfolding(crate::specs::Responses::status_line))]
fn push_status_line(out: &mut Vec<u8>, code: u16) -> Result<(), Memory>
    requires { IsTrue (is_code code) }
    ensures { OnOk result (out.new.items ≡ out.old.items ++ texts.status_line code) }
{
    push(out, b"HTTP/1.0 ")?;
    push_decimal(out, code as u64)?;
    push(out, b" ")?;
    push_phrase(out, code)?;
    push_line_end(out)?;
    Ok(())
}

/// Appends the fields that tell of so many bytes of body.
#[tactic(auto, unfolding(crate::specs::Responses::body_fields))]
fn push_body_fields(out: &mut Vec<u8>, count: u64) -> Result<(), Memory>
    ensures { OnOk result (out.new.items ≡ out.old.items ++ texts.body_fields count) }
{
    push(out, b"Content-Type: text/plain")?;
    push_line_end(out)?;
    push(out, b"Content-Length: ")?;
    push_decimal(out, count)?;
    push_line_end(out)?;
    Ok(())
}

/// The head of a response with so many bytes of body.
#[tactic(auto, unfolding(crate::specs::Responses::head_text))]
fn head_text(alloc: Global, code: u16, count: u64) -> Result<Vec<u8>, Memory>
    requires { IsTrue (is_code code) }
    ensures { IfOk result (λ text. text.items ≡ texts.head_text code count) }
{
    let mut out = Vec::new(alloc);
    push_status_line(&mut out, code)?;
    push_body_fields(&mut out, count)?;
    push(&mut out, b"Connection: close")?;
    push_line_end(&mut out)?;
    push_line_end(&mut out)?;
    Ok(out)
}

/// Writes a response whole.
pub fn write_response<K: Sink>(
    alloc: Global,
    sink: &mut K,
    response: &Response,
) -> Result<(), WriteRefusal>
    requires { IsTrue (is_code response.now.code) }
    ensures { WritesResponse (K.written sink.old) (K.written sink.new) (K.faults sink.old) (K.faults sink.new)
        (texts.response_text response.now.code response.now.body.items) result }
{
    let Ok(head) = head_text(alloc, response.code, response.body.len() as u64) else {
        return Err(WriteRefusal::Memory);
    };
    if let WriteAll::Failed { sent } = write_all(sink, &head) {
        return Err(WriteRefusal::WriteFault { sent: sent as u64 });
    }
    if let WriteAll::Failed { sent } = write_all(sink, &response.body) {
        return Err(WriteRefusal::WriteFault {
            sent: head.len() as u64 + sent as u64,
        });
    }
    Ok(())
}
