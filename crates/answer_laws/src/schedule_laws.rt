// What holds of schedules, of the moments of a period, and of its phases.
ghost use Rattle.answer_laws.specs.Timeline.{MomentsAscend, PhasesAreBetween, SchedulesAreSuch};

/// A law: three numbers that are answered with a schedule are one.
pub fn schedules_are_such()
    ensures { SchedulesAreSuch }
{}

/// A law: the moments of a period stand in their order, each later than the one before.
pub fn moments_ascend()
    ensures { MomentsAscend }
{}

/// A law: the phase at a moment is the one whose two moments it stands between.
pub fn phases_are_between()
    ensures { PhasesAreBetween }
{}
