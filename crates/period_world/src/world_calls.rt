// What calls at several authorities make of a world.
ghost use Rattle.period_world.specs.WorldCalls.{BegunAreWorlds, CallsAreWorlds, PeriodStatesTakeAll};

/// States of one roster that began are the start of a world.
pub fn begun_are_worlds()
    ensures { BegunAreWorlds }
{}

/// Where calls at the states of a world lead, what happens in a world leads.
pub fn calls_are_worlds()
    ensures { CallsAreWorlds }
{}

/// Among the calls at other states, a state took what came to it, one after the other, as it does alone.
pub fn period_states_take_all()
    ensures { PeriodStatesTakeAll }
{}
