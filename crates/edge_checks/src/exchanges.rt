// A link over loopback.
use dir_http::{Link, LinkAnswer};
use std::alloc::Global;
use std::io::{Read, Write};
use std::net::{Net, TcpListener, TcpStream};
use std::rt::Clock;
use std::test::Fail;
use std::thread;
use std::time::{Duration, Instant};
use tcp_edge::TcpLink;

const REQUEST: &[u8] = b"GET / HTTP/1.0\r\n\r\n";

/// The most bytes that are taken.
const LIMIT: u64 = 60;

/// What is no response: no head, fewer bytes than it says, a body that is compressed, and more bytes than the limit.
const BAD: [&[u8]; 4] = [
    b"abc",
    b"HTTP/1.0 200 OK\r\nContent-Length: 4\r\n\r\nabc",
    b"HTTP/1.0 200 OK\r\nContent-Encoding: gzip\r\n\r\nabc",
    b"HTTP/1.0 200 OK\r\nContent-Type: text/plain\r\n\r\nabcdefghijklmnopqrstuvwxyz",
];

/// Takes one connection, reads a request of 18 bytes and answers it.
fn answer_one(listener: &TcpListener, text: &[u8]) -> bool {
    let Ok((mut stream, _)) = listener.accept() else {
        return false;
    };
    let mut request = [0u8; 18];
    stream.read_exact(&mut request).is_ok() && stream.write_all(text).is_ok()
}

/// Asks a peer twice over one link, and tells whether the second time failed at once.
fn is_left_alone<R: Net + Clock>(alloc: Global, rt: &R, peer: &[u8]) -> bool {
    let mut link = TcpLink::new(alloc, rt);
    drop(link.exchange(alloc, peer, REQUEST, LIMIT));
    let Ok(began) = Instant::now(rt) else {
        return false;
    };
    let answer = link.exchange(alloc, peer, REQUEST, LIMIT);
    let Ok(took) = began.elapsed(rt) else {
        return false;
    };
    match answer {
        LinkAnswer::Fault => took < Duration::from_secs(1),
        _ => false,
    }
}

#[test]
fn a_link_gets_what_a_peer_sends(rt: HostRuntime) -> Result<(), Fail> {
    let alloc = rt.alloc();
    let listener = TcpListener::bind(&rt, "127.0.0.1:0")?;
    let address = listener.local_addr()?;
    let peer = format!(in alloc; "{address}")?;
    let (answer, answered) = thread::join(
        &rt,
        || TcpLink::new(alloc, &rt).exchange(alloc, peer.as_bytes(), REQUEST, LIMIT),
        || answer_one(&listener, b"HTTP/1.0 200 OK\r\n\r\nabc"),
    );
    match answer {
        LinkAnswer::Got(bytes) if answered && bytes.len() == 22 => {}
        _ => return Err(Fail::new("another answer")),
    }
    for text in BAD {
        let (alone, answered) = thread::join(
            &rt,
            || is_left_alone(alloc, &rt, peer.as_bytes()),
            || answer_one(&listener, text),
        );
        if !alone || !answered {
            return Err(Fail::new("asked again"));
        }
    }
    // Nobody listens, and no address.
    for nobody in [b"127.0.0.1:1".as_slice(), b"nowhere"] {
        match TcpLink::new(alloc, &rt).exchange(alloc, nobody, REQUEST, LIMIT) {
            LinkAnswer::Fault => {}
            _ => return Err(Fail::new("an answer of nobody")),
        }
    }
    Ok(())
}
