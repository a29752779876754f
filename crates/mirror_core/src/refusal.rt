// Why a mirror took nothing.
ghost use Rattle.std.specs.Prelude.{◌≡◌};
ghost use Rattle.mirror_core.specs.Refusals as refusals;

use frame_terms::{FrameFault, ReadRefusal};

/// Why a mirror took nothing; of several the first that applies. It is as it was.
#[derive(Clone, Copy, Debug, PartialEq, Eq)]
pub enum MirrorRefusal {
    /// The first fault of the first document that has one, with its place in the input.
    Document(FrameFault),
    /// The consensus is of the ns flavour.
    WrongFlavour,
    /// A consensus is held that is valid from this moment, and the new one from no later one.
    Older { held: u64 },
    /// The verifier failed, and nothing is known.
    VerifierFault,
    /// So many signed it, which are not more than half of so many.
    TooFewSigners { counted: u32, roster: u32 },
    /// There was no memory.
    Memory,
}

/// A document that was not read.
pub(crate) fn of_read(refusal: ReadRefusal) -> MirrorRefusal
    ensures { result ≡ refusals.of_read refusal }
{
    match refusal {
        ReadRefusal::Frame(fault) => MirrorRefusal::Document(fault),
        ReadRefusal::Memory => MirrorRefusal::Memory,
    }
}
