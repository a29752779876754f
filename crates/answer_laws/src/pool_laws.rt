// What a pool holds after descriptors were kept in turn.
ghost use Rattle.answer_laws.specs.Newest.{NewestAreHeld, PoolRanksAgree, PoolsAscend};

/// A law: whatever descriptors were kept in turn, those that are held ascend by identity, and are no more than may be.
pub fn pools_ascend()
    ensures { PoolsAscend }
{}

/// A law: of descriptors that were kept in turn, no more than a pool may change, the newest of each relay is held.
pub fn newest_are_held()
    ensures { NewestAreHeld }
{}

/// A law: the order in which they come, and how often, changes no rank that is held of a relay.
pub fn pool_ranks_agree()
    ensures { PoolRanksAgree }
{}
