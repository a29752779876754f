// Laws of the definitions.
ghost use Rattle.vote_terms.specs.{Acceptable.VerifiedAreNotRefused, Held.{HeldIsHeld, HeldAscend, RanksAgree}};
ghost use Rattle.vote_terms.specs.Held.{HeldAgree};

/// What is held of a list of votes is, for each authority, its vote of the greatest rank, and of different votes of
/// that rank the first.
pub fn held_is_held()
    ensures { HeldIsHeld }
{}

/// The held votes of a list are in strictly ascending order of their identities, so that each authority has one at most.
pub fn held_ascend()
    ensures { HeldAscend }
{}

/// The order in which votes come, and how often, changes no rank that is held.
pub fn ranks_agree()
    ensures { RanksAgree }
{}

/// The order in which votes come, and how often, changes nothing that is held, where no two different votes of one
/// authority share a rank.
pub fn held_agree()
    ensures { HeldAgree }
{}

/// Under a verifier that either accepts or refuses each signature, never both, none of the signatures of a vote that
/// holds may be refused.
pub fn verified_votes_are_not_refused()
    ensures { VerifiedAreNotRefused }
{}
