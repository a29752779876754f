// Why an input that is checked while it is read gives nothing.
ghost use Rattle.std.specs.Prelude.{◌≡◌};
ghost use Rattle.compute_command.specs.{Told.{of_calc, of_end}, declared.halt.Halt.TheVariants.Stops};
ghost use Rattle.daemon_words.specs.declared.stop.Stop.TheVariants.{Memory as NoMemory};

use crate::refusal::{AcceptRefusal, ComputeRefusal, EndRefusal, VoteListRefusal};
use consensus_calc::CalcFault;
use daemon_words::Stop;
use dir_bytes::Memory;

/// Why an input that is checked while it is read gives nothing.
#[derive(Clone, Copy, Debug, PartialEq, Eq)]
pub enum Halt {
    /// The source failed.
    ReadFault,
    /// The source gave more bytes than the limit.
    TooLong,
    /// The command stops.
    Stops(Stop<ComputeRefusal>),
}

impl From<Stop<EndRefusal>> for Halt {
    ghost from_gives = { λ why e. e ≡ Stops (of_end why) };

    fn from(why: Stop<EndRefusal>) -> Halt {
        let why = match why {
            Stop::Memory => return Halt::Stops(Stop::Memory),
            Stop::Refused(EndRefusal::Fault(fault)) => ComputeRefusal::Fault(fault),
            Stop::Refused(EndRefusal::Votes(AcceptRefusal::Vote { number, word })) => {
                ComputeRefusal::Votes(VoteListRefusal::Vote { number, word })
            }
            Stop::Refused(EndRefusal::Votes(AcceptRefusal::Verifier)) => ComputeRefusal::Verifier,
        };
        Halt::Stops(Stop::Refused(why))
    }
}

impl From<CalcFault> for Halt {
    ghost from_gives = { λ why e. e ≡ Stops (of_calc why) };

    fn from(why: CalcFault) -> Halt {
        match why {
            CalcFault::TooFew { held, roster } => {
                let few = VoteListRefusal::TooFew { held, roster };
                Halt::Stops(Stop::Refused(ComputeRefusal::Votes(few)))
            }
            CalcFault::Memory => Halt::Stops(Stop::Memory),
        }
    }
}

impl From<Memory> for Halt {
    ghost from_gives = { λ _ e. e ≡ Stops NoMemory };

    fn from(_: Memory) -> Halt {
        Halt::Stops(Stop::Memory)
    }
}
