// The next period.
ghost use Rattle.std.specs.Prelude.{◌≡◌};
ghost use Rattle.period_terms.specs.Schedules as schedules;
ghost use Rattle.period_core.specs.Starting.{IsLater};

use vote_schedule::{Config, next_valid_after};

/// When the next period begins, as the definitions of an authority's states have it: later than this moment, and within the
/// calendar.
pub(crate) fn next_period(config: &Config, after: u64, now: u64) -> Option<u64>
    ensures value { result ≡ schedules.next_valid_after config.now after now }
    ensures later { IsLater after result }
{
    let _interval = config.interval();
    next_valid_after(config, after, now)
}
