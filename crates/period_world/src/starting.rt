// An authority that begins.
ghost use Rattle.std.specs.Prelude.{IfOk};
ghost use Rattle.period_core.specs.Starting.{Starts};
ghost use Rattle.period_terms.specs.Histories.{IsStart};

use count_terms::Newest;
use dir_values::{Fingerprint, Roster};
use key_port::Verifier;
use period_core::{PeriodState, StartFault};
use std::alloc::Global;
use vote_schedule::Config;

/// An authority of the roster that knows this newest method and begins at a moment, in a state that is a start.
///
/// # Errors
/// Those of `PeriodState::start`.
pub fn begin<V: Verifier>(
    alloc: Global,
    roster: Roster,
    own: Fingerprint,
    newest: Newest,
    config: Config,
    now: u64,
) -> Result<PeriodState<V>, StartFault>
    ensures starts { Starts roster own newest config now result }
    ensures start { IfOk result (λ state. IsStart state) }
{
    let _ = roster.len();
    let _ = config.interval();
    PeriodState::start(alloc, roster, own, newest, config, now)
}
