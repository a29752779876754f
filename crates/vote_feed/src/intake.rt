// What comes of taking bytes in.
ghost use Rattle.std.specs.Prelude.{◌≡◌, ◌≤◌, length, take};
ghost use Rattle.vote_feed.specs.Lending as terms;

use crate::fed::Fed;
use frame_terms::FrameFault;

/// What comes of taking bytes in, behind others of which nothing is known.
#[derive(Clone, Copy, Debug)]
pub(crate) enum Intake {
    /// All were taken, and nothing is known of the vote.
    All,
    /// The vote is whole.
    Whole {
        /// With how many of the bytes.
        taken: usize,
    },
    /// The vote is faulty, whatever follows.
    Fault {
        /// With how many of the bytes.
        taken: usize,
        /// Its first fault.
        fault: FrameFault,
    },
}

/// What is told of it.
pub(crate) fn fed_of(intake: Intake) -> Fed
    ensures { result ≡ terms.fed_of intake }
{
    match intake {
        Intake::All => Fed::All,
        Intake::Whole { taken } => Fed::Whole { taken },
        Intake::Fault { taken, .. } => Fed::Fault { taken },
    }
}

/// What of a part was taken.
pub(crate) fn taken_part(part: &[u8], intake: Intake) -> &[u8]
    requires { terms.count_of (length part.now) intake ≤ length part.now }
    ensures { result.now ≡ take (terms.count_of (length part.now) intake) part.now }
{
    match intake {
        Intake::All => part,
        Intake::Whole { taken } => &part[..taken],
        Intake::Fault { taken, .. } => &part[..taken],
    }
}
