// What an authority holds and publishes after whatever came.
ghost use Rattle.period_laws.specs.Periods.{HeldAreHeld, AcceptedAreWanted, ComputedOfAccepted, HistoryLeads};
ghost use Rattle.period_laws.specs.Periods.{FrontCounts, RanksAreOne, PeriodStatesAgree, PublishedIsSigned};
ghost use Rattle.period_laws.specs.Periods.{SignedIsPublished, LinesAreAccepted, GivenIsTold, HistoryIsOne};
ghost use Rattle.period_laws.specs.Periods.{HistoryGoesOn, FrontOfHistory, TextsStand};

/// The held votes are those that are held of the accepted votes of the period.
pub fn held_are_held()
    ensures { HeldAreHeld }
{}

/// Each accepted vote is for the period, and of an authority of the roster.
pub fn accepted_are_wanted()
    ensures { AcceptedAreWanted }
{}

/// What is computed is the consensus of the accepted votes alone.
pub fn computed_of_accepted()
    ensures { ComputedOfAccepted }
{}

/// The history of what came leads to the same state.
pub fn history_leads()
    ensures { HistoryLeads }
{}

/// The front is the number of the changes that were made.
pub fn front_counts()
    ensures { FrontCounts }
{}

/// Two authorities that accepted the same votes hold votes of equal ranks.
pub fn ranks_are_one()
    ensures { RanksAreOne }
{}

/// They hold the same votes and compute the same texts, unless two different votes of one authority share a rank.
pub fn period_states_agree()
    ensures { PeriodStatesAgree }
{}

/// A text is published only with the signatures of more than half of the roster, once the period has begun.
#[tactic(auto, unfolding(period_terms::specs::Advances::advance))]
pub fn published_is_signed()
    ensures { PublishedIsSigned }
{}

/// Where more than half of the roster signed, and the period has begun, it is published.
#[tactic(auto, unfolding(period_terms::specs::Advances::advance))]
pub fn signed_is_published()
    ensures { SignedIsPublished }
{}

/// Each signature that is held may be accepted over the digest of what is computed, by the key of its authority's held vote.
pub fn lines_are_accepted()
    ensures { LinesAreAccepted }
{}

/// What the signer gave is told by the answer and the state after it.
pub fn given_is_told()
    ensures { GivenIsTold }
{}

/// The history of what came is one: each entry stands with its answer.
pub fn history_is_one()
    ensures { HistoryIsOne }
{}

/// A history with one more event is one, and leads to the state after the event.
pub fn history_goes_on()
    ensures { HistoryGoesOn }
{}

/// The front after a history is the number of its entries.
pub fn front_of_history()
    ensures { FrontOfHistory }
{}

/// A computed or signed authority has a consensus, one that votes or is frozen has none.
pub fn texts_stand()
    ensures { TextsStand }
{}
