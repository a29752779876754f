// Requests that are read with ample memory, whole and byte by byte.
use dir_bytes::MemorySource;
use dir_http::{Method2, read_request};
use std::alloc::Global;
use std::test::Fail;

const REQUESTS: [(&[u8], Method2, usize); 5] = [
    (b"GET /tor/keys/all HTTP/1.0\r\n\r\n", Method2::Get, 0),
    (
        b"\r\nGET /tor/keys/all HTTP/1.1\nHost: 192.0.2.1\n\n",
        Method2::Get,
        0,
    ),
    (b"PUT /tor/post/vote HTTP/1.0\r\n\r\n", Method2::Other, 0),
    (
        b"POST /tor/post/vote HTTP/1.0\r\ncontent-LENGTH: 004\r\n\r\nabcd",
        Method2::Post,
        4,
    ),
    (
        b"POST /tor/ HTTP/1.0\r\nContent-Length: 0\r\n\r\n",
        Method2::Post,
        0,
    ),
];

// Whether a request of this method is read, with a body of so many bytes.
fn is_read(alloc: Global, source: &mut MemorySource, method: Method2, length: usize) -> bool {
    match read_request(alloc, source) {
        Ok(request) => request.method == method && request.body.len() == length,
        Err(_) => false,
    }
}

#[test]
fn nothing_is_read_behind_a_request(rt: HostRuntime) -> Result<(), Fail> {
    let alloc = rt.alloc();
    for (text, method, length) in REQUESTS {
        // The second read would fail.
        let failing = [2].to_vec(alloc)?;
        let mut source = MemorySource::new(Vec::from_slice(alloc, text)?, Vec::new(alloc), failing);
        if !is_read(alloc, &mut source, method, length) {
            return Err(Fail::new("another request"));
        }
    }
    Ok(())
}

#[test]
fn a_request_may_come_byte_by_byte(rt: HostRuntime) -> Result<(), Fail> {
    let alloc = rt.alloc();
    for (text, method, length) in REQUESTS {
        let mut cuts = Vec::new(alloc);
        for place in 0..text.len() as u64 {
            cuts.push(place)?;
        }
        let failing = [text.len() as u64 + 1].to_vec(alloc)?;
        let mut source = MemorySource::new(Vec::from_slice(alloc, text)?, cuts, failing);
        if !is_read(alloc, &mut source, method, length) {
            return Err(Fail::new("another request"));
        }
    }
    Ok(())
}
