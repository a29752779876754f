// The moments of periods.
ghost use Rattle.period_terms.specs.Schedules.{NextIsNext};

/// The next period is the least that serves, as the schedule has it.
pub fn next_is_next()
    ensures { NextIsNext }
{}
