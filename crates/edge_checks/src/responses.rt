// Responses of the C implementation, with the first bytes of their bodies.
use crate::rows::written;
use dir_bytes::Text;
use dir_http::{FetchFault, MemoryLink, Response, fetch, post};
use http_words::{Reply, Word, read_digests};
use std::alloc::Global;
use std::test::Fail;

const RESPONSES: [(&[u8], u16, usize); 4] = [
    (
        b"HTTP/1.0 404 Not found\r\nDate: Thu, 26 Nov 2026 19:21:00 GMT\r\n\r\n",
        404,
        0,
    ),
    (
        b"HTTP/1.0 200 OK\r\nDate: Thu, 26 Nov 2026 19:21:00 GMT\r\nContent-Type: text/plain\r\nContent-Encoding: identity\r\nContent-Length: 28\r\nExpires: Fri, 27 Nov 2026 19:21:00 GMT\r\n\r\nUser-agent: *\r\nDisallow: /\r\n",
        200,
        28,
    ),
    (
        b"HTTP/1.0 200 OK\r\nDate: Thu, 26 Nov 2026 19:21:00 GMT\r\nContent-Type: text/plain\r\nContent-Encoding: identity\r\nExpires: Thu, 26 Nov 2026 19:25:00 GMT\r\nVary: X-Or-Diff-From-Consensus\r\n\r\nnetwork-status-version 3\n",
        200,
        25,
    ),
    (
        b"HTTP/1.0 400 Unable to parse vote\r\nDate: Thu, 26 Nov 2026 19:21:06 GMT\r\n\r\n",
        400,
        0,
    ),
];

/// No whole responses: nothing, a body that is compressed, and one of one byte more and of one fewer than it says.
const BROKEN: [&[u8]; 4] = [
    b"",
    b"HTTP/1.0 200 OK\r\ncontent-encoding: gzip\r\n\r\nabc",
    b"HTTP/1.0 200 OK\r\nContent-Length: 2\r\n\r\nabc",
    b"HTTP/1.0 200 OK\r\nContent-Length: 4\r\n\r\nabc",
];

/// A link that sends this again and again, and fails in its third exchange.
fn link_of(alloc: Global, text: &[u8]) -> Result<MemoryLink, Fail> {
    let mut replies = Vec::new(alloc);
    replies.push(Text::copy_of(alloc, text)?)?;
    Ok(MemoryLink::new(alloc, replies, [3].to_vec(alloc)?))
}

/// Whether there is no response, for this reason.
fn fails(answer: Result<Response, FetchFault>, fault: FetchFault) -> bool {
    match answer {
        Ok(_) => false,
        Err(found) => found == fault,
    }
}

#[test]
fn what_is_no_response_is_told(rt: HostRuntime) -> Result<(), Fail> {
    let alloc = rt.alloc();
    for text in BROKEN {
        let mut link = link_of(alloc, text)?;
        let got = fetch(alloc, &mut link, b"192.0.2.1:80", b"/tor/keys/all", 1000);
        let sent = post(alloc, &mut link, b"192.0.2.1:80", b"/tor/", b"abc");
        let failed = fetch(alloc, &mut link, b"192.0.2.1:80", b"/tor/keys/all", 1000);
        if !fails(got, FetchFault::BadAnswer)
            || !fails(sent, FetchFault::BadAnswer)
            || !fails(failed, FetchFault::LinkFault)
        {
            return Err(Fail::new("another fault"));
        }
    }
    Ok(())
}

#[test]
fn responses_of_the_c_implementation_are_whole(rt: HostRuntime) -> Result<(), Fail> {
    let alloc = rt.alloc();
    for (text, code, length) in RESPONSES {
        let mut link = link_of(alloc, text)?;
        match fetch(alloc, &mut link, b"192.0.2.1:80", b"/tor/robots.txt", 1000) {
            Ok(response) if response.code == code && response.body.len() == length => {}
            _ => return Err(Fail::new("another response")),
        }
        let short = fetch(alloc, &mut link, b"192.0.2.1:80", b"/tor/robots.txt", 60);
        if !fails(short, FetchFault::TooLarge) {
            return Err(Fail::new("a response above the limit"));
        }
    }
    Ok(())
}

#[test]
fn a_word_is_written_and_a_list_is_read(rt: HostRuntime) -> Result<(), Fail> {
    let alloc = rt.alloc();
    if written(alloc, Reply::Refused(Word::Truncated))?
        .written
        .len()
        != 103
    {
        return Err(Fail::new("another response"));
    }
    // Of zeros, and the SHA-256 of nothing.
    let list =
        b"AAAAAAAAAAAAAAAAAAAAAAAAAAAAAAAAAAAAAAAAAAA-47DEQpj8HBSa+/TImW+5JCeuQeRkm5NMpJWZG3hSuFU";
    match read_digests(alloc, list) {
        Ok(Some(digests)) if digests.len() == 2 => Ok(()),
        _ => Err(Fail::new("another list")),
    }
}
