// `authority_daemon::run` over the real input, output and errors, the system's clock, sockets and a key service.
ghost use Rattle.std.specs.Prelude.{◌≡◌, vec_len, IfOk};

use authority_daemon::{Outside, run};
use daemon_words::{Keys, keys_of};
use dir_bytes::{StdSink, StdSource, SystemClock};
use exit_status::{Status, report};
use key_port::{ServiceKeys, Signer, TestKeys, UnixDial, Verifier};
use std::alloc::{AllocError, Global};
use std::net::{Net, TcpListener};
use std::process::ExitCode;
use std::rt::Clock;
use std::sync::{OnceLock, Wait};
use std::thread::Threads;
use std::time::Duration;
use std::{env, io};
use tcp_edge::{TcpGate, TcpLink};

/// Where the key service listens.
const KEY_SERVICE: &str = "/run/dirauth-keys";

/// How many workers there are, each with its verifier and its clock.
const WORKERS: usize = 4;

/// How long it is from the end of the duties to their next turn.
fn period() -> Duration {
    Duration::from_secs(1)
}

/// The words behind the program's name.
fn words(rt: &HostRuntime) -> io::Result<Vec<String>> {
    let mut words = Vec::new(rt.alloc());
    for word in env::args(rt)?.skip(1) {
        words.push(word)?;
    }
    Ok(words)
}

/// The system's clock, for each worker.
fn clocks<'a>(rt: &'a HostRuntime) -> Result<Vec<SystemClock<&'a HostRuntime>>, AllocError>
    ensures { IfOk result (λ clocks. vec_len clocks ≡ 4) }
{
    let mut clocks = Vec::new(rt.alloc());
    clocks.push(SystemClock::new(rt))?;
    clocks.push(SystemClock::new(rt))?;
    clocks.push(SystemClock::new(rt))?;
    clocks.push(SystemClock::new(rt))?;
    Ok(clocks)
}

/// The test scheme, for each worker.
fn test_keys(alloc: Global) -> Result<Vec<TestKeys>, AllocError>
    ensures { IfOk result (λ verifiers. vec_len verifiers ≡ 4) }
{
    let mut verifiers = Vec::new(alloc);
    verifiers.push(TestKeys::new(Vec::new(alloc)))?;
    verifiers.push(TestKeys::new(Vec::new(alloc)))?;
    verifiers.push(TestKeys::new(Vec::new(alloc)))?;
    verifiers.push(TestKeys::new(Vec::new(alloc)))?;
    Ok(verifiers)
}

/// The test scheme, as a signer.
fn test_signer(alloc: Global) -> TestKeys {
    TestKeys::new(Vec::new(alloc))
}

/// The key service, for one worker or for signing. It is dialed when it is asked first.
fn one_service<'a, R: Net + Clock>(
    alloc: Global,
    runtime: &'a R,
) -> Result<ServiceKeys<UnixDial<&'a R>>, AllocError> {
    let path = String::from_str(alloc, KEY_SERVICE)?;
    Ok(ServiceKeys::new(UnixDial::new(runtime, path)))
}

/// The key service, for each worker.
fn service_keys<'a, R: Net + Clock>(
    alloc: Global,
    runtime: &'a R,
) -> Result<Vec<ServiceKeys<UnixDial<&'a R>>>, AllocError>
    ensures { IfOk result (λ verifiers. vec_len verifiers ≡ 4) }
{
    let mut verifiers = Vec::new(alloc);
    verifiers.push(one_service(alloc, runtime)?)?;
    verifiers.push(one_service(alloc, runtime)?)?;
    verifiers.push(one_service(alloc, runtime)?)?;
    verifiers.push(one_service(alloc, runtime)?)?;
    Ok(verifiers)
}

/// The gates of the workers, over one listener. The first gives no connection, so that its worker is always free for the duties
/// of the authority.
fn gates<'a>(
    rt: &'a HostRuntime,
    listener: &'a OnceLock<TcpListener>,
) -> Result<Vec<TcpGate<'a, HostRuntime>>, AllocError>
    ensures { IfOk result (λ gates. vec_len gates ≡ 4) }
{
    let mut gates = Vec::new(rt.alloc());
    gates.push(TcpGate::idling(rt.alloc(), rt, listener, period()))?;
    gates.push(TcpGate::serving(rt.alloc(), rt, listener, period()))?;
    gates.push(TcpGate::serving(rt.alloc(), rt, listener, period()))?;
    gates.push(TcpGate::serving(rt.alloc(), rt, listener, period()))?;
    Ok(gates)
}

/// Runs the words with these verifiers and this signer over the real input, output, errors, clocks and sockets.
fn run_with<H: Threads + Wait + Sync, V: Verifier + Send + Sync + Drop, N: Signer + Send + Drop>(
    workers: &H,
    rt: &HostRuntime,
    words: &[String],
    verifiers: Result<Vec<V>, AllocError>,
    signer: Result<N, AllocError>,
) -> Status
    requires { IfOk verifiers (λ verifiers. vec_len verifiers ≡ 4) }
{
    let listener = OnceLock::new();
    let (Ok(clocks), Ok(gates)) = (clocks(rt), gates(rt, &listener)) else {
        return want_of_memory(rt);
    };
    let (Ok(verifiers), Ok(signer)) = (verifiers, signer) else {
        return want_of_memory(rt);
    };
    let mut outside = Outside {
        source: StdSource::new(rt.reader()),
        sink: StdSink::new(io::writer(rt)),
        errors: StdSink::new(rt.stderr()),
        clocks,
        verifiers,
        signer,
        gates,
        link: TcpLink::new(rt.alloc(), rt),
    };
    run(workers, rt.alloc(), words, &mut outside)
}

/// Says that there was no memory for the words or for what stands outside.
fn want_of_memory(rt: &HostRuntime) -> Status {
    let mut errors = StdSink::new(rt.stderr());
    report(&mut errors, Status::Memory);
    Status::Memory
}

/// Runs the words, with the verifiers and the signer that they choose.
fn run_words<H: Threads + Wait + Sync>(workers: &H, rt: &HostRuntime, words: &[String]) -> Status {
    let alloc = rt.alloc();
    let (keys, words) = keys_of(words);
    match keys {
        Keys::Test => run_with(workers, rt, words, test_keys(alloc), Ok(test_signer(alloc))),
        Keys::Service => run_with(
            workers,
            rt,
            words,
            service_keys(alloc, rt),
            one_service(alloc, rt),
        ),
    }
}

/// Runs the words behind the program's name, and gives the exit code of the status.
///
/// Workers begin by what `workers` allows.
pub(crate) fn program<H: Threads + Wait + Sync>(workers: &H, rt: &HostRuntime) -> ExitCode {
    let status = match words(rt) {
        Ok(words) => run_words(workers, rt, &words),
        Err(error) if error.kind() == io::ErrorKind::OutOfMemory => want_of_memory(rt),
        // Words that are no text are none of the grammar, and no words are none either.
        Err(_) => run_words(workers, rt, &[]),
    };
    status.exit_code()
}
