// Why a call of a command gives nothing.
ghost use Rattle.std.specs.Prelude.{◌≡◌};
ghost use Rattle.daemon_words.specs.Stops as stops;
ghost use Rattle.daemon_words.specs.declared.stop.Stop.TheVariants.{Memory as NoMemory};

use crate::command::Kind;
use dir_bytes::Memory;
use frame_terms::{FrameFault, ReadRefusal};
use std::alloc::{AllocError, AllocFailed};

/// Why a call of a command gives nothing.
#[derive(Clone, Copy, Debug, PartialEq, Eq)]
pub enum Stop<R> {
    /// There was no memory.
    Memory,
    /// The input is refused.
    Refused(R),
}

impl<R> From<AllocError> for Stop<R> {
    ghost from_gives = { λ _ e. e ≡ NoMemory };

    fn from(_: AllocError) -> Stop<R> {
        Stop::Memory
    }
}

impl<R, T: Drop> From<AllocFailed<T>> for Stop<R> {
    ghost from_gives = { λ _ e. e ≡ NoMemory };

    fn from(_: AllocFailed<T>) -> Stop<R> {
        Stop::Memory
    }
}

impl<R> From<Memory> for Stop<R> {
    ghost from_gives = { λ _ e. e ≡ NoMemory };

    fn from(_: Memory) -> Stop<R> {
        Stop::Memory
    }
}

/// The input is no document of a kind, or no list of them.
#[derive(Clone, Copy, Debug, PartialEq, Eq)]
pub struct DocumentRefusal {
    /// The kind of document that the command reads.
    pub kind: Kind,
    /// The input's first fault.
    pub fault: FrameFault,
}

/// What was read of documents of a kind, or why the command stops.
pub fn of_kind<D: Drop>(
    kind: Kind,
    read: Result<D, ReadRefusal>,
) -> Result<D, Stop<DocumentRefusal>>
    ensures { result ≡ stops.of_kind kind read }
{
    match read {
        Ok(documents) => Ok(documents),
        Err(ReadRefusal::Frame(fault)) => Err(Stop::Refused(DocumentRefusal { kind, fault })),
        Err(ReadRefusal::Memory) => Err(Stop::Memory),
    }
}
