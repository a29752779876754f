// Laws of the definitions.
ghost use Rattle.compute_terms.specs.{Flags.KnowsFlags, Identities.PairsAreAlone, Randoms.AgreedRandomsAreListed};
ghost use Rattle.compute_terms.specs.Randoms.{RandomsAreAlone};

/// A consensus knows exactly the flags that some vote lists, `NoEdConsensus`, and, by 32 and 33, where some vote lists
/// `MiddleOnly`, `BadExit`.
pub fn knows_flags()
    ensures { KnowsFlags }
{}

/// Of one RSA identity at most one pair is included, where no more votes list it than the roster has authorities.
pub fn pairs_are_alone()
    ensures { PairsAreAlone }
{}

/// On a line no two shared random values are agreed, where there are no more votes than the roster has authorities.
pub fn randoms_are_alone()
    ensures { RandomsAreAlone }
{}

/// A consensus says exactly the shared random value that votes of more than half of the roster have on that line, and at least so
/// many.
pub fn agreed_randoms_are_listed()
    ensures { AgreedRandomsAreListed }
{}
