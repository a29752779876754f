// How a run of a mirror ends, and the line that it writes.
ghost use Rattle.std.specs.Prelude.{◌≡◌};
ghost use Rattle.std.specs.Process as process;
ghost use Rattle.dir_bytes.specs.Streams.{WritesAll};
ghost use Rattle.mirror_daemon.specs.Lines.{line_of, number_of};

use dir_bytes::{Sink, WriteAll, write_all};
use std::process::ExitCode;

/// How a run of a mirror ends.
#[derive(Clone, Copy, Debug, PartialEq, Eq)]
pub enum MirrorStatus {
    /// The gate was closed.
    Done,
    /// There was no memory, and nothing was served.
    Memory,
    /// The words tell no mirror.
    BadWords,
    /// The gate failed.
    Gate,
}

impl MirrorStatus {
    /// The number with which the process ends.
    pub fn number(self) -> u8
        ensures { result ≡ number_of self }
    {
        match self {
            MirrorStatus::Done => 0,
            MirrorStatus::Memory => 1,
            MirrorStatus::BadWords => 2,
            MirrorStatus::Gate => 11,
        }
    }

    /// What `main` returns, so that the process ends with the status's number.
    pub fn exit_code(self) -> ExitCode
        ensures { process.exit_status result ≡ number_of self }
    {
        ExitCode::from(self.number())
    }

    /// The line that is written to the errors sink, none where the gate was closed.
    fn line(self) -> &'static [u8]
        ensures { result.now ≡ line_of self }
    {
        match self {
            MirrorStatus::Done => b"",
            MirrorStatus::Memory => b"want of memory\n",
            MirrorStatus::BadWords => b"bad words\n",
            MirrorStatus::Gate => b"gate fault\n",
        }
    }
}

/// Writes the line of a status, or a front of it where the sink fails. Takes no memory.
pub fn report<E: Sink>(errors: &mut E, status: MirrorStatus) -> WriteAll
    ensures { WritesAll (E.written errors.old) (E.written errors.new) (E.faults errors.old) (E.faults errors.new)
        (line_of status) result }
{
    write_all(errors, status.line())
}
