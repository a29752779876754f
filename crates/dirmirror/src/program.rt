// `mirror_daemon::run_mirror` over the real errors, the system's clock, sockets and a key service.

use daemon_words::{Keys, keys_of};
use dir_bytes::{StdSink, SystemClock};
use key_port::{ServiceKeys, TestKeys, UnixDial, Verifier};
use mirror_daemon::{MirrorOutside, MirrorStatus, report, run_mirror};
use std::alloc::{AllocError, Global};
use std::net::Net;
use std::process::ExitCode;
use std::rt::Clock;
use std::sync::{OnceLock, Wait};
use std::time::Duration;
use std::{env, io};
use tcp_edge::{TcpGate, TcpLink};

/// Where the key service listens.
const KEY_SERVICE: &str = "/run/dirauth-keys";

/// How long connections are served between two rounds of the peers.
fn period() -> Duration {
    Duration::from_secs(60)
}

/// The words behind the program's name.
fn words(rt: &HostRuntime) -> io::Result<Vec<String>> {
    let mut words = Vec::new(rt.alloc());
    for word in env::args(rt)?.skip(1) {
        words.push(word)?;
    }
    Ok(words)
}

/// The test scheme.
fn test_keys(alloc: Global) -> TestKeys {
    TestKeys::new(Vec::new(alloc))
}

/// The key service. It is dialed when it is asked first.
fn service_keys<'a, R: Net + Clock>(
    alloc: Global,
    runtime: &'a R,
) -> Result<ServiceKeys<UnixDial<&'a R>>, AllocError> {
    let path = String::from_str(alloc, KEY_SERVICE)?;
    Ok(ServiceKeys::new(UnixDial::new(runtime, path)))
}

/// Runs the words with this verifier over the real errors, clock and sockets.
fn run_with<H: Wait, V: Verifier + Drop>(
    waiting: &H,
    rt: &HostRuntime,
    words: &[String],
    verifier: V,
) -> MirrorStatus {
    let listener = OnceLock::new();
    let mut outside = MirrorOutside {
        clock: SystemClock::new(rt),
        verifier,
        gate: TcpGate::serving(rt.alloc(), rt, &listener, period()),
        link: TcpLink::new(rt.alloc(), rt),
        errors: StdSink::new(rt.stderr()),
    };
    run_mirror(waiting, rt.alloc(), words, &mut outside)
}

/// Says that there was no memory for the words or for what stands outside.
fn want_of_memory(rt: &HostRuntime) -> MirrorStatus {
    let mut errors = StdSink::new(rt.stderr());
    let _ = report(&mut errors, MirrorStatus::Memory);
    MirrorStatus::Memory
}

/// Runs the words, with the verifier that they choose.
fn run_words<H: Wait>(waiting: &H, rt: &HostRuntime, words: &[String]) -> MirrorStatus {
    let alloc = rt.alloc();
    let (keys, words) = keys_of(words);
    match keys {
        Keys::Test => run_with(waiting, rt, words, test_keys(alloc)),
        Keys::Service => match service_keys(alloc, rt) {
            Ok(verifier) => run_with(waiting, rt, words, verifier),
            Err(_) => want_of_memory(rt),
        },
    }
}

/// Runs the words behind the program's name, and gives the exit code of the status.
pub(crate) fn program<H: Wait>(waiting: &H, rt: &HostRuntime) -> ExitCode {
    let status = match words(rt) {
        Ok(words) => run_words(waiting, rt, &words),
        Err(error) if error.kind() == io::ErrorKind::OutOfMemory => want_of_memory(rt),
        // Words that are no text are none of the grammar, and no words are none either.
        Err(_) => run_words(waiting, rt, &[]),
    };
    status.exit_code()
}
