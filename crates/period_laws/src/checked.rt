// What is known after whatever came that was checked before it came.
ghost use Rattle.period_laws.specs.Checked.{HistoryRuns, CheckedGoesOn, AcceptedAreAcceptable, SignersAreCounted};
ghost use Rattle.period_laws.specs.Publications.{CurrentsWerePublished};

/// The events of a history lead where it leads.
pub fn history_runs()
    ensures { HistoryRuns }
{}

/// A history that was checked goes on by an event that was.
pub fn checked_goes_on()
    ensures { CheckedGoesOn }
{}

/// Each accepted vote is acceptable.
pub fn accepted_are_acceptable()
    ensures { AcceptedAreAcceptable }
{}

/// Those who have a signature of a flavour, counted, are the signers of its digest.
pub fn signers_are_counted()
    ensures { SignersAreCounted }
{}

/// What stands as the current document was published, with signatures of more than half of the roster.
pub fn currents_were_published()
    ensures { CurrentsWerePublished }
{}
