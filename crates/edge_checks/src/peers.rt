// A gate over loopback.
use dir_bytes::{Sink, Source};
use dir_http::{
    Gate, GateAnswer, HttpFault, ListenAnswer, Method2, Response, read_request, write_response,
};
use std::alloc::Global;
use std::io::{Read, Write};
use std::net::{Shutdown, TcpListener, TcpStream};
use std::rt::Clock;
use std::sync::OnceLock;
use std::test::Fail;
use std::thread;
use std::time::{Duration, Instant};
use tcp_edge::TcpGate;

/// As many bytes as are not kept by the sockets of a peer that reads nothing.
const LARGE: usize = 8388608;

/// Those of a response, with its head.
const WHOLE: u64 = 8388697;

/// Answers one request with a large response. Whether it was a GET.
fn answer_one<S: Source, K: Sink>(alloc: Global, input: &mut S, output: &mut K) -> bool {
    let Ok(request) = read_request(alloc, input) else {
        return false;
    };
    let Ok(body) = vec![in alloc; b'x'; LARGE] else {
        return false;
    };
    let response = Response { code: 200, body };
    request.method == Method2::Get && write_response(alloc, output, &response).is_ok()
}

/// How often the gates say `Idle`.
fn period() -> Duration {
    Duration::from_secs(1)
}

/// Whether a gate says `Idle` next, and when.
fn idle_after<R: Clock, G: Gate>(rt: &R, gate: &mut G) -> Option<Duration> {
    let began = Instant::now(rt).ok()?;
    match gate.next() {
        GateAnswer::Idle => began.elapsed(rt).ok(),
        _ => None,
    }
}

/// Whether a gate says `Idle` at once, and then after its period.
fn idles_in_time<R: Clock, G: Gate>(rt: &R, gate: &mut G) -> bool {
    match (idle_after(rt, gate), idle_after(rt, gate)) {
        (Some(first), Some(second)) => first < period() && second >= period(),
        _ => false,
    }
}

/// Answers the requests that a gate gives until the peers are done, and rests for longer than its period before it asks the
/// gate first, and at each `Idle`. How many were answered.
fn answer_all<R: Clock, G: Gate + Drop>(
    alloc: Global,
    rt: &R,
    given: G,
    done: &OnceLock<bool>,
) -> u64 {
    let mut gate = given;
    let mut answered = 0u64;
    let mut idle = true;
    for _ in 0..30 {
        if done.get().is_some() {
            break;
        }
        if idle {
            thread::sleep(rt, Duration::from_millis(1500));
        }
        idle = true;
        if let GateAnswer::Connection(mut input, mut output) = gate.next() {
            idle = false;
            if answer_one(alloc, &mut input, &mut output) {
                answered = answered.saturating_add(1);
            }
        }
    }
    answered
}

/// Sends a request.
fn ask(peer: &mut TcpStream) -> bool {
    peer.write_all(b"GET /tor/keys/all HTTP/1.0\r\n\r\n")
        .is_ok()
}

/// Counts what comes until the other side has closed.
fn count_of(peer: &mut TcpStream) -> u64 {
    let mut count = 0u64;
    let mut piece = [0u8; 65536];
    for _ in 0..1000000 {
        match peer.read(&mut piece) {
            Ok(0) => return count,
            Ok(came) => count = count.saturating_add(came as u64),
            Err(_) => return 0,
        }
    }
    0
}

/// One peer asks and reads nothing until another, which asks later, has read its response.
fn read_both(slow: &mut TcpStream, quick: &mut TcpStream, done: &OnceLock<bool>) -> bool {
    let asked = ask(slow) && ask(quick);
    let read = asked && count_of(quick) == WHOLE && count_of(slow) == WHOLE;
    let _ = done.try_set(true);
    read
}

#[test]
fn silent_and_slow_peers_hold_up_no_other(rt: HostRuntime) -> Result<(), Fail> {
    let cell: OnceLock<TcpListener> = OnceLock::new();
    let mut gate = TcpGate::serving(rt.alloc(), &rt, &cell, period());
    if gate.listen(b"127.0.0.1:0") != ListenAnswer::Listening || !idles_in_time(&rt, &mut gate) {
        return Err(Fail::new("it does not listen, or is idle at another time"));
    }
    let address = cell.get().ok_or("no listener")?.local_addr()?;
    let mut silent = TcpStream::connect(&rt, address)?;
    let begun = silent.write_all(b"GET /tor/keys").is_ok();
    let mut slow = TcpStream::connect(&rt, address)?;
    let mut quick = TcpStream::connect(&rt, address)?;
    let done = OnceLock::new();
    let (read, answered) = thread::join(
        &rt,
        || read_both(&mut slow, &mut quick, &done),
        || answer_all(rt.alloc(), &rt, gate, &done),
    );
    drop(silent);
    if !begun || !read || answered != 2 {
        return Err(Fail::new("another response"));
    }
    Ok(())
}

const BODIES: [(&[u8], Option<HttpFault>); 3] = [
    (
        b"POST /tor/ HTTP/1.0\r\nContent-Length: 4\r\n\r\nabc",
        Some(HttpFault::Truncated { have: 3, want: 4 }),
    ),
    (
        b"POST /tor/ HTTP/1.0\r\nContent-Length: 4\r\n\r\nabcde",
        None,
    ),
    (
        b"POST /tor/ HTTP/1.0\r\nContent-Length: 4",
        Some(HttpFault::BadHead),
    ),
];

/// Why the request that a gate gives next is not read, or none where it is.
fn next_fault<G: Gate>(alloc: Global, gate: &mut G) -> Result<Option<HttpFault>, Fail> {
    for _ in 0..10 {
        if let GateAnswer::Connection(mut input, output) = gate.next() {
            drop(output);
            return match read_request(alloc, &mut input) {
                Ok(request) if request.body.as_slice() == b"abcd".as_slice() => Ok(None),
                Ok(_) => Err(Fail::new("another body")),
                Err(fault) => Ok(Some(fault)),
            };
        }
    }
    Err(Fail::new("no connection"))
}

#[test]
fn a_peer_may_end_too_early(rt: HostRuntime) -> Result<(), Fail> {
    let cell: OnceLock<TcpListener> = OnceLock::new();
    let mut gate = TcpGate::serving(rt.alloc(), &rt, &cell, period());
    if gate.listen(b"127.0.0.1:0") != ListenAnswer::Listening {
        return Err(Fail::new("it does not listen"));
    }
    let address = cell.get().ok_or("no listener")?.local_addr()?;
    for (text, fault) in BODIES {
        let mut peer = TcpStream::connect(&rt, address)?;
        peer.write_all(text)?;
        peer.shutdown(Shutdown::Write)?;
        if next_fault(rt.alloc(), &mut gate)? != fault {
            return Err(Fail::new("another fault"));
        }
    }
    Ok(())
}
