// Laws of what a pool holds. There is nothing to run.
ghost use Rattle.vote_pool.specs.Laws.{ChangesAreHeld, OthersStay, ReplacedAreOlder};

/// What is held of other relays stays.
pub fn others_stay()
    ensures { OthersStay }
{}

/// After `Kept` or `Replaced` the descriptor is held.
pub fn changes_are_held()
    ensures { ChangesAreHeld }
{}

/// A descriptor that is replaced was of the smaller rank.
pub fn replaced_are_older()
    ensures { ReplacedAreOlder }
{}
