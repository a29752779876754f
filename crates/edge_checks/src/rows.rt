// Requests that are refused, and what is answered.
use dir_bytes::{MemorySink, MemorySource};
use dir_http::{Response, read_request, write_response};
use http_words::{Asked, Reply, asked_by, reply_to};
use std::alloc::Global;
use std::test::Fail;

const ROWS: [(&[u8], &[u8]); 7] = [
    // A method that is neither GET nor POST.
    (
        b"PUT /tor/post/vote HTTP/1.0\r\n\r\n",
        b"HTTP/1.0 405 Method Not Allowed\r\nContent-Type: text/plain\r\nContent-Length: 0\r\nConnection: close\r\n\r\n",
    ),
    // A POST without a length.
    (
        b"POST /tor/post/vote HTTP/1.0\r\n\r\n",
        b"HTTP/1.0 411 Length Required\r\nContent-Type: text/plain\r\nContent-Length: 0\r\nConnection: close\r\n\r\n",
    ),
    // A byte above the limit of its path.
    (
        b"POST /tor/post/vote HTTP/1.0\r\nContent-Length: 16777217\r\n\r\n",
        b"HTTP/1.0 413 Payload Too Large\r\nContent-Type: text/plain\r\nContent-Length: 0\r\nConnection: close\r\n\r\n",
    ),
    // One byte fewer than it says.
    (
        b"POST /tor/post/vote HTTP/1.0\r\nContent-Length: 4\r\n\r\nabc",
        b"HTTP/1.0 400 Bad Request\r\nContent-Type: text/plain\r\nContent-Length: 10\r\nConnection: close\r\n\r\ntruncated\n",
    ),
    // A length that is no number.
    (
        b"GET /tor/keys/all HTTP/1.0\r\nContent-Length: x\r\n\r\n",
        b"HTTP/1.0 400 Bad Request\r\nContent-Type: text/plain\r\nContent-Length: 5\r\nConnection: close\r\n\r\nhead\n",
    ),
    // A path of compressed documents.
    (
        b"GET /tor/status-vote/current/consensus.z HTTP/1.0\r\n\r\n",
        b"HTTP/1.0 404 Not Found\r\nContent-Type: text/plain\r\nContent-Length: 0\r\nConnection: close\r\n\r\n",
    ),
    // One byte more than it says, which is not read.
    (
        b"POST /tor/nothing HTTP/1.0\r\nContent-Length: 4\r\n\r\nabcde",
        b"HTTP/1.0 404 Not Found\r\nContent-Type: text/plain\r\nContent-Length: 0\r\nConnection: close\r\n\r\n",
    ),
];

/// What a request is answered, if that is no document.
fn reply_of(alloc: Global, source: &mut MemorySource) -> Option<Reply> {
    let request = match read_request(alloc, source) {
        Ok(request) => request,
        Err(fault) => return reply_to(fault),
    };
    match asked_by(request.method, request.path.as_bytes()) {
        Asked::NotAllowed => Some(Reply::NotAllowed),
        Asked::Unknown => Some(Reply::NotFound),
        _ => None,
    }
}

/// A source of these bytes.
fn source_of(alloc: Global, text: &[u8]) -> Result<MemorySource, Fail> {
    Ok(MemorySource::new(
        Vec::from_slice(alloc, text)?,
        Vec::new(alloc),
        Vec::new(alloc),
    ))
}

/// The sink to which a reply was written.
pub(crate) fn written(alloc: Global, reply: Reply) -> Result<MemorySink, Fail> {
    let mut sink = MemorySink::new(Vec::with_capacity(alloc, 200)?, 7, Vec::new(alloc));
    let response: Response = reply.response(alloc)?;
    match write_response(alloc, &mut sink, &response) {
        Ok(()) => Ok(sink),
        Err(_) => Err(Fail::new("not written")),
    }
}

#[test]
fn refused_requests_are_answered(rt: HostRuntime) -> Result<(), Fail> {
    let alloc = rt.alloc();
    for (request, answer) in ROWS {
        let reply = reply_of(alloc, &mut source_of(alloc, request)?).ok_or("no reply")?;
        if written(alloc, reply)?.written.as_slice() != answer {
            return Err(Fail::new("another answer"));
        }
    }
    Ok(())
}

#[test]
fn a_head_has_at_most_16384_bytes(rt: HostRuntime) -> Result<(), Fail> {
    let alloc = rt.alloc();
    // The head has 38 bytes and those of the field's value.
    for (count, fits) in [(16346usize, true), (16347, false)] {
        let mut text = Vec::from_slice(alloc, b"GET /tor/keys/all HTTP/1.0\r\nHost: ")?;
        text.resize(34 + count, b'x')?;
        text.extend_from_slice(b"\r\n\r\n")?;
        let reply = reply_of(alloc, &mut source_of(alloc, &text)?);
        if reply.is_none() != fits {
            return Err(Fail::new("another limit"));
        }
    }
    Ok(())
}
