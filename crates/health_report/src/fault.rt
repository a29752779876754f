// Why there is no report.
ghost use Rattle.std.specs.Prelude.{◌≡◌};
ghost use Rattle.health_report.specs.declared.fault.ReportFault.TheVariants as fault;

use dir_bytes::Memory;
use std::alloc::{AllocError, AllocFailed};

/// Why there is no report.
#[derive(Clone, Copy, Debug, PartialEq, Eq)]
pub enum ReportFault {
    /// The consensus is of the microdesc flavour.
    WrongFlavour,
    /// The verifier failed, and nothing is known.
    VerifierFault,
    /// There was no memory.
    Memory,
}

impl From<AllocError> for ReportFault {
    ghost from_gives = { λ _ e. e ≡ fault.Memory };

    fn from(_: AllocError) -> ReportFault {
        ReportFault::Memory
    }
}

impl<T: Drop> From<AllocFailed<T>> for ReportFault {
    ghost from_gives = { λ _ e. e ≡ fault.Memory };

    fn from(_: AllocFailed<T>) -> ReportFault {
        ReportFault::Memory
    }
}

impl From<Memory> for ReportFault {
    ghost from_gives = { λ _ e. e ≡ fault.Memory };

    fn from(_: Memory) -> ReportFault {
        ReportFault::Memory
    }
}
