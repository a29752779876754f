// A document that stands behind other bytes.
ghost use Rattle.std.specs.Prelude.{◌≡◌, ◌+◌, ◌<◌, ◌^◌};
ghost use Rattle.blank_lines.specs.Behind as behind;

use frame_terms::{FrameFault, ReadRefusal};

/// A fault of a document that stands behind so many bytes, with its place among all of them.
pub fn fault_behind(start: u64, fault: FrameFault) -> FrameFault
    requires { start + fault.place < 2 ^ 64 }
    ensures { result ≡ behind.fault_behind start fault }
{
    FrameFault {
        place: start + fault.place,
        reason: fault.reason,
    }
}

/// Why a document is refused that stands behind so many bytes, with its place among all of them.
pub fn refusal_behind(start: u64, refusal: ReadRefusal) -> ReadRefusal
    requires { behind.FitsBehind start refusal }
    ensures { result ≡ behind.refusal_behind start refusal }
{
    match refusal {
        ReadRefusal::Frame(fault) => ReadRefusal::Frame(fault_behind(start, fault)),
        ReadRefusal::Memory => ReadRefusal::Memory,
    }
}
