// Reading a request whole.
ghost use Rattle.std.specs.Prelude.{◌≡◌, ◌≤◌, ◌<◌, ℕ, List, Option, Ok, Err, IsErrAnd};
ghost use Rattle.dir_bytes.specs.Causes.{Rose};
ghost use Rattle.dir_http.specs.Requests.{IsFailure, ReadsBody, ReadsHead, ReadsWhole, body_ahead, bytes_of};
ghost use Rattle.dir_http.specs.Requests.{request_of};

use crate::body::BodyReader;
use crate::fault::HttpFault;
use crate::head::{Head, read_head};
use crate::length::Method2;
use dir_bytes::{Source, Text};
use std::alloc::Global;

/// A request.
#[derive(Debug, Drop)]
pub struct Request {
    pub method: Method2,
    pub path: Text,
    pub body: Vec<u8>,
}

/// The body that follows a head, whole.
fn read_body<S: Source>(alloc: Global, head: &Head, source: &mut S) -> Result<Vec<u8>, HttpFault>
    ensures answer { ReadsBody head.now.length (body_ahead 0 head.now (S.left source.old)) (bytes_of result) }
    ensures fault { result ≡ Err HttpFault.ReadFault → Rose (S.faults source.old) (S.faults source.new) }
    ensures faults { S.faults source.old ≤ S.faults source.new }
    ensures told { S.faults source.old < S.faults source.new → result ≡ Err HttpFault.ReadFault }
{
    let mut body = Vec::new(alloc);
    if head.length == 0 {
        return Ok(body);
    }
    let mut reader = BodyReader::new(head);
    let mut piece = [0u8; 65536];
    'pieces: loop {
        match reader.next(head, source, &mut piece) {
            Ok(0) => return Ok(body),
            Ok(count) => body.extend_from_slice(&piece[..count])?,
            Err(fault) => return Err(fault),
        }
    }
}

/// Reads what follows a head, as the request that it begins.
///
/// # Errors
/// `Truncated` where the source ended before the body did; `ReadFault` where it failed; `Memory` is want of memory.
pub fn read_rest<S: Source>(alloc: Global, head: Head, source: &mut S) -> Result<Request, HttpFault>
    // Where this head was read of a source that tells: exactly the request that stood at its front, or that it was cut off.
    ensures answer { (left : Option (List ℕ)) → ReadsHead left (S.left source.old) (Ok head) → ReadsWhole left (request_of result) }
    ensures fault { result ≡ Err HttpFault.ReadFault → Rose (S.faults source.old) (S.faults source.new) }
    ensures faults { S.faults source.old ≤ S.faults source.new }
    // A source that failed is told.
    ensures told { S.faults source.old < S.faults source.new → result ≡ Err HttpFault.ReadFault }
{
    match read_body(alloc, &head, source) {
        Ok(body) => Ok(Request {
            method: head.method,
            path: head.path,
            body,
        }),
        Err(fault) => Err(fault),
    }
}

/// Reads one request.
pub fn read_request<S: Source>(alloc: Global, source: &mut S) -> Result<Request, HttpFault>
    // Over a source that tells: exactly the request that stands at the front, or why it is refused.
    ensures answer { ReadsWhole (S.left source.old) (request_of result) }
    ensures fault { result ≡ Err HttpFault.ReadFault → Rose (S.faults source.old) (S.faults source.new) }
    ensures faults { S.faults source.old ≤ S.faults source.new }
    // A source that failed is told.
    ensures told { S.faults source.old < S.faults source.new → IsErrAnd result IsFailure }
{
    match read_head(alloc, source) {
        Ok(head) => read_rest(alloc, head, source),
        Err(fault) => Err(fault),
    }
}
