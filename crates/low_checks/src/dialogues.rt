// Key services in memory, and one behind a Unix socket.
ghost use Rattle.std.specs.Prelude.{⊤};

use dir_bytes::{MemorySink, MemorySource, Sink, Source};
use key_port::{
    Dial, KeyKind, ServiceKeys, SignAnswer, UnixDial, Verifier, VerifyAnswer, exchange,
    exchange_signing, request_fits, sign_request_fits,
};
use std::alloc::Global;
use std::io::{Read, Write};
use std::os::unix::net::UnixListener;
use std::test::Fail;
use std::time::Duration;
use std::{fs, thread};

type Connection = (MemorySource, MemorySink);

// Gives the connections from the last to the first, `None` where a dial fails, and then fails.
#[derive(Drop)]
struct Connections {
    others: Vec<Option<Connection>>,
}

impl Dial for Connections {
    type In = MemorySource;

    type Out = MemorySink;

    ghost gives = { λ before connection after. ⊤ };

    ghost takes_back = { λ before failed after. ⊤ };

    fn dial(&mut self) -> Option<Connection> {
        self.others.pop()?
    }

    fn take_back(&mut self, failed: Connection)
        ensures { ⊤ }
    {
        drop(failed);
    }
}

// A service that sends this text. The read and the write with these numbers fail.
fn service(alloc: Global, text: &[u8], read: u64, write: u64) -> Result<Connection, Fail> {
    let reads = [read].to_vec(alloc)?;
    let source = MemorySource::new(text.to_vec(alloc)?, Vec::new(alloc), reads);
    let room = Vec::with_capacity(alloc, 66000)?;
    Ok((source, MemorySink::new(room, 50, [write].to_vec(alloc)?)))
}

// The keys of a service that is dialed a first and a second time.
fn keys(
    alloc: Global,
    first: Option<Connection>,
    second: Option<Connection>,
) -> Result<ServiceKeys<Connections>, Fail> {
    let mut others = Vec::new(alloc);
    others.push(second)?;
    others.push(first)?;
    Ok(ServiceKeys::new(Connections { others }))
}

// Whether a short question gets this answer, with so many faults behind it.
fn answers(keys: &mut ServiceKeys<Connections>, want: VerifyAnswer, faults: u64) -> bool {
    let answer = keys.verify(KeyKind::Identity, b"id", b"message", b"signature");
    answer == want && keys.faults() == faults
}

// Whether the first connection answers by a fault, and the second one is asked then.
fn drops_the_first(alloc: Global, first: Option<Connection>) -> Result<bool, Fail> {
    let mut keys = keys(alloc, first, Some(service(alloc, b"no\nyes\n", 0, 0)?))?;
    Ok(
        answers(&mut keys, VerifyAnswer::Fault, 1)
            && answers(&mut keys, VerifyAnswer::No, 1)
            && answers(&mut keys, VerifyAnswer::Yes, 1),
    )
}

// What a service sends, and the numbers of the read and the write that fail.
const FAULTS: [(&[u8], u64, u64); 15] = [
    (b"yes \n", 0, 0),
    (b"maybe\n", 0, 0),
    (b"yes", 0, 0),
    (b"no", 0, 0),
    (b"", 0, 0),
    (b"\n", 0, 0),
    (b"YES\n", 0, 0),
    (b"no\r\n", 0, 0),
    (b"yes\0\n", 0, 0),
    (b"yes\n", 1, 0),
    (b"yes\n", 2, 0),
    (b"yes\n", 3, 0),
    (b"yes\n", 4, 0),
    (b"yes\n", 0, 1),
    (b"yes\n", 0, 2),
];

#[test]
fn other_answers_and_failing_ends_are_faults(rt: HostRuntime) -> Result<(), Fail> {
    let alloc = rt.alloc();
    let mut row = 0u32;
    for (text, read, write) in FAULTS {
        row = row.wrapping_add(1);
        if !drops_the_first(alloc, Some(service(alloc, text, read, write)?))? {
            return Err(Fail::new(row));
        }
    }
    Ok(())
}

#[test]
fn a_failing_dial_and_an_endless_line_are_faults(rt: HostRuntime) -> Result<(), Fail> {
    let alloc = rt.alloc();
    let line = vec![in alloc; b'y'; 65536]?;
    let endless = drops_the_first(alloc, Some(service(alloc, &line, 0, 0)?))?;
    if !endless || !drops_the_first(alloc, None)? {
        return Err(Fail::new("no fault"));
    }
    Ok(())
}

// What a service sends that answers one question, the numbers of the read and the write that fail then, and whether the
// second question is asked again.
const CLOSING: [(&[u8], u64, u64, bool); 7] = [
    (b"yes\n", 0, 0, true),
    (b"yes\n", 5, 0, true),
    (b"yes\n", 0, 3, true),
    (b"yes\n", 0, 4, true),
    (b"yes\nn", 0, 0, false),
    (b"yes\nno\n", 6, 0, false),
    (b"yes\nmaybe\n", 0, 0, false),
];

// Whether the second connection answers the second question, or the one behind it.
fn goes_on(alloc: Global, first: Connection, again: bool) -> Result<bool, Fail> {
    let mut keys = keys(
        alloc,
        Some(first),
        Some(service(alloc, b"no\nyes\n", 0, 0)?),
    )?;
    if !answers(&mut keys, VerifyAnswer::Yes, 0) {
        return Ok(false);
    }
    if again {
        return Ok(answers(&mut keys, VerifyAnswer::No, 0));
    }
    Ok(answers(&mut keys, VerifyAnswer::Fault, 1) && answers(&mut keys, VerifyAnswer::No, 1))
}

#[test]
fn a_dialogue_goes_on_until_the_service_closes(rt: HostRuntime) -> Result<(), Fail> {
    let alloc = rt.alloc();
    for (text, read, write, again) in CLOSING {
        if !goes_on(alloc, service(alloc, text, read, write)?, again)? {
            return Err(Fail::new("another connection"));
        }
    }
    let first = service(alloc, b"yes\nno\nyes\n", 0, 0)?;
    let mut keys = keys(alloc, Some(first), None)?;
    for (want, faults) in [
        (VerifyAnswer::Yes, 0),
        (VerifyAnswer::No, 0),
        (VerifyAnswer::Yes, 0),
        (VerifyAnswer::Fault, 1),
        (VerifyAnswer::Fault, 2),
    ] {
        if !answers(&mut keys, want, faults) {
            return Err(Fail::new(faults));
        }
    }
    Ok(())
}

// One exchange, or no answer where the request is too long or no byte of one came.
fn ask_over<S: Source, K: Sink>(
    source: &mut S,
    sink: &mut K,
    kind: KeyKind,
    words: [&[u8]; 3],
) -> Option<VerifyAnswer> {
    let [key, message, signature] = words;
    if !request_fits(kind, key, message, signature) {
        return None;
    }
    exchange(source, sink, kind, key, message, signature)
}

#[test]
fn requests_are_lines_of_hex(rt: HostRuntime) -> Result<(), Fail> {
    let (mut source, mut sink) = service(rt.alloc(), b"yes\nno\n", 0, 0)?;
    let words: [&[u8]; 3] = [b"sign-1", &[0x2f, 0xd4, 0xe1, 0xc6], &[0xab]];
    let first = ask_over(&mut source, &mut sink, KeyKind::Signing, words);
    let words: [&[u8]; 3] = [b"", &[0, 255], b""];
    let second = ask_over(&mut source, &mut sink, KeyKind::Ed25519, words);
    let want = b"verify signing 7369676e2d31 2fd4e1c6 ab\nverify ed25519 - 00ff -\n";
    if (first, second) != (Some(VerifyAnswer::Yes), Some(VerifyAnswer::No)) {
        return Err(Fail::new("other answers"));
    }
    if sink.written.as_slice() != want.as_slice() {
        return Err(Fail::new("other requests"));
    }
    Ok(())
}

// What is asked for three times, which signature is given, and whether one is.
const SIGN_LINE: &[u8] = b"sign signing 7369676e2d31 2fd4\n";

const GIVEN: [(&[u8], bool); 3] = [(&[0, 255], true), (b"", true), (b"", false)];

#[test]
fn a_service_gives_signatures(rt: HostRuntime) -> Result<(), Fail> {
    let alloc = rt.alloc();
    let (mut source, mut sink) = service(alloc, b"ok 00ff\nok -\nyes\n", 0, 0)?;
    let (key, message): (&[u8], &[u8]) = (b"sign-1", &[0x2f, 0xd4]);
    for (want, gives) in GIVEN {
        if !sign_request_fits(KeyKind::Signing, key, message) {
            return Err(Fail::new("too long"));
        }
        sink.written.clear();
        let answer = exchange_signing(
            alloc,
            &mut source,
            &mut sink,
            KeyKind::Signing,
            key,
            message,
        );
        let given = match answer {
            Some(SignAnswer::Signed(signature)) => signature.as_bytes() == want,
            Some(SignAnswer::Fault) | Some(SignAnswer::Memory) | None => false,
        };
        if given != gives || sink.written.as_slice() != SIGN_LINE {
            return Err(Fail::new("another signature"));
        }
    }
    Ok(())
}

#[test]
fn a_request_has_65536_bytes_at_most(rt: HostRuntime) -> Result<(), Fail> {
    let alloc = rt.alloc();
    let message = vec![in alloc; 0u8; 32758]?;
    let mut keys = keys(alloc, Some(service(alloc, b"yes\n", 0, 0)?), None)?;
    // 65,537 bytes, and then 65,536, to the first connection still.
    let long = keys.verify(KeyKind::Signing, b"", &message, &[0]);
    let fits = keys.verify(KeyKind::Signing, &[0], &message[..32757], &[0]);
    if (long, fits) != (VerifyAnswer::Fault, VerifyAnswer::Yes) || keys.faults() != 1 {
        return Err(Fail::new("other answers"));
    }
    Ok(())
}

#[test]
fn a_unix_socket_is_dialed(rt: HostRuntime) -> Result<(), Fail> {
    let path = "key_service.socket";
    let _stale = fs::remove_file(&rt, path);
    let mut dial = UnixDial::new(&rt, String::from_str(rt.alloc(), path)?);
    if dial.dial().is_some() {
        return Err(Fail::new("a connection to nothing"));
    }
    let listener = UnixListener::bind(&rt, path)?;
    let connection = dial.dial();
    let (mut server, _) = listener.accept()?;
    server.write_all(b"yes\n")?;
    let (mut source, mut sink) = connection.ok_or("no connection")?;
    let words: [&[u8]; 3] = [b"id", b"", b"+"];
    let answer = ask_over(&mut source, &mut sink, KeyKind::Identity, words);
    let mut request = [0u8; 64];
    let count = server.read(&mut request)?;
    if answer != Some(VerifyAnswer::Yes)
        || &request[..count] != b"verify identity 6964 - 2b\n".as_slice()
    {
        return Err(Fail::new("another dialogue"));
    }
    // The service is silent now, and then it is dialed no more for a second.
    let silent = ask_over(&mut source, &mut sink, KeyKind::Identity, words);
    dial.take_back((source, sink));
    let rests = dial.dial().is_none();
    thread::sleep(&rt, Duration::from_millis(1500));
    let dials = dial.dial().is_some();
    fs::remove_file(&rt, path)?;
    if silent.is_some() || !rests || !dials {
        return Err(Fail::new("no rest"));
    }
    Ok(())
}
