// The flags that a consensus knows.
ghost use Rattle.std.specs.Prelude.{◌≡◌, [], ◌∷◌, ◌++◌, IfOk, codes};
ghost use Rattle.dir_values.specs.FlagSets.{as_set};
ghost use Rattle.compute_terms.specs.Flags.{listed_flags, known_flags, with_own_flags};

use consensus_terms::is_34_or_later;
use dir_bytes::Memory;
use dir_values::FlagSet;
use field_votes::add_own_flags;
use std::alloc::Global;
use vote_doc::Accepted;

/// The flags that some vote lists, `NoEdConsensus`, and by 32 and 33 `BadExit` where `MiddleOnly` is among the listed ones.
pub fn known_flags(alloc: Global, method: u32, votes: &Accepted) -> Result<FlagSet, Memory>
    ensures { IfOk result (λ set. set ≡ known_flags method votes.now.votes) }
{
    if is_34_or_later(method) {
        known_from_34(alloc, votes)
    } else {
        known_to_33(alloc, votes)
    }
}

/// Those flags, from 34 on.
fn known_from_34(alloc: Global, votes: &Accepted) -> Result<FlagSet, Memory>
    ensures { IfOk result (λ set. set ≡ as_set (listed_flags votes.now.votes ++ codes "NoEdConsensus" ∷ [])) }
{
    let mut set = listed(alloc, votes)?;
    set.insert(alloc, b"NoEdConsensus")?;
    Ok(set)
}

/// Those flags, by 32 and 33.
fn known_to_33(alloc: Global, votes: &Accepted) -> Result<FlagSet, Memory>
    ensures { IfOk result (λ set. set ≡ as_set (with_own_flags (listed_flags votes.now.votes))) }
{
    let mut set = listed(alloc, votes)?;
    add_own_flags(alloc, &mut set)?;
    Ok(set)
}

/// The flags that votes list.
fn listed(alloc: Global, votes: &Accepted) -> Result<FlagSet, Memory>
    ensures { IfOk result (λ set. set ≡ as_set (listed_flags votes.now.votes)) }
{
    let mut set = FlagSet::new(alloc);
    'votes: for i in 0..votes.len() {
        set.insert_all(alloc, votes.vote(i).vote().known_flags())?;
    }
    Ok(set)
}
