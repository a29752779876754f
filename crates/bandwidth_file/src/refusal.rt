// Why bytes are not a bandwidth file.
ghost use Rattle.std.specs.Prelude.{◌≡◌, Some};
ghost use Rattle.bandwidth_file.specs.Refusals.{RefusedAs};

use dir_bytes::Memory;

/// What is wrong with a line of a bandwidth file.
#[derive(Clone, Copy, Debug, PartialEq, Eq)]
pub enum BandReason {
    /// The first line is no number of 64 bits, or there is none. The place is the line's first byte.
    Timestamp,
    /// A header line has no `=`. The place is the line's first byte.
    Header,
    /// A relay line that is not ignored has a wrong last value of `node_id` or `bw`. The place is that of the value, of two
    /// that of the earlier.
    Value,
    /// A line has a NUL. The place is that of the first one.
    Nul,
    /// The input ends inside a line. The place is the input's length.
    Unterminated,
    /// A line has more than 1,048,576 bytes with its NL. The place is the first byte that is too many.
    LineTooLong,
    /// With a relay line there are more than 65,535 identities. The place is the line's first byte.
    TooMany,
}

/// A fault of a line, with its place.
#[derive(Clone, Copy, Debug, PartialEq, Eq)]
pub struct BandFault {
    /// The place in bytes, counted from the input's first byte.
    pub place: u64,
    /// What is wrong there.
    pub reason: BandReason,
}

/// Why bytes are not read as a bandwidth file.
#[derive(Clone, Copy, Debug, PartialEq, Eq)]
pub enum BandRefusal {
    /// The first fault: this is wrong at this place, counted from the input's first byte.
    Fault { place: u64, reason: BandReason },
    /// There was no memory.
    Memory,
}

impl From<Memory> for BandRefusal {
    ghost use Rattle.bandwidth_file.specs.declared.refusal.BandRefusal.TheVariants.{Memory as NoMemory};

    ghost from_gives = { λ _ e. e ≡ NoMemory };

    fn from(_: Memory) -> Self {
        BandRefusal::Memory
    }
}

/// The fault with a place and a reason.
pub(crate) fn at(place: u64, reason: BandReason) -> BandFault
    ensures { result ≡ record { place = place; reason = reason } }
{
    BandFault { place, reason }
}

/// The refusal of bytes with this first fault.
pub(crate) fn refused(fault: BandFault) -> BandRefusal
    ensures { RefusedAs (Some fault) result }
{
    BandRefusal::Fault {
        place: fault.place,
        reason: fault.reason,
    }
}
