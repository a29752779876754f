// Streams of std and clocks.
use dir_bytes::{
    Clock, MemoryClock, ReadAnswer, Sink, Source, StdSink, StdSource, SystemClock, WriteAnswer,
};
use std::io;
use std::io::{Error, ErrorKind, Read, Write};
use std::test::Fail;

// A stream that gives or takes one byte, fails once, and is then at its end.
#[derive(Drop)]
struct Broken {
    calls: u64,
}

impl Broken {
    fn step(&mut self) -> io::Result<usize> {
        self.calls = self.calls.saturating_add(1);
        match self.calls {
            1 => Ok(1),
            2 => Err(Error::from(ErrorKind::Other)),
            _ => Ok(0),
        }
    }
}

impl Read for Broken {
    fn read(&mut self, out: &mut [u8]) -> io::Result<usize> {
        Ok(self.step()?.min(out.len()))
    }
}

impl Write for Broken {
    fn write(&mut self, bytes: &[u8]) -> io::Result<usize> {
        Ok(self.step()?.min(bytes.len()))
    }

    fn flush(&mut self) -> io::Result<()> {
        Ok(())
    }
}

const READS: [ReadAnswer; 3] = [ReadAnswer::Got(1), ReadAnswer::Failed, ReadAnswer::End];

// A write of nothing is a failure.
const WRITES: [WriteAnswer; 3] = [
    WriteAnswer::Took(1),
    WriteAnswer::Failed,
    WriteAnswer::Failed,
];

#[test]
fn a_source_of_std_gives_bytes_failures_and_its_end() -> Result<(), Fail> {
    let mut source = StdSource::new(Broken { calls: 0 });
    let mut out = [0; 4];
    for want in READS {
        if source.read(&mut out) != want {
            return Err(Fail::new("another answer"));
        }
    }
    Ok(())
}

#[test]
fn a_sink_of_std_takes_bytes_and_fails() -> Result<(), Fail> {
    let mut sink = StdSink::new(Broken { calls: 0 });
    for want in WRITES {
        if sink.write(b"ab") != want {
            return Err(Fail::new("another answer"));
        }
    }
    Ok(())
}

#[test]
fn clocks_give_their_moments(rt: HostRuntime) -> Result<(), Fail> {
    let mut clock = MemoryClock::new([5, 3].to_vec(rt.alloc())?);
    for want in [5, 3, 3] {
        if clock.now() != want {
            return Err(Fail::new("another moment"));
        }
    }
    // 2026-01-01 00:00:00
    if SystemClock::new(rt.clone()?).now() < 1767225600 {
        return Err(Fail::new("a moment of other years"));
    }
    Ok(())
}
