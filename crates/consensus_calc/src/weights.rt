// The weights of a consensus.
ghost use Rattle.std.specs.Prelude.{◌≡◌, IfOk};
ghost use Rattle.compute_terms.specs.Consensuses.{weighted_consensus};

use bandwidth_rules::relay_weights;
use consensus_terms::{Consensus, ConsensusFacts};
use dir_bytes::Memory;

/// How many relays a consensus has fewer than: with so many no machine has the memory for their votes.
const TOO_MANY_RELAYS: usize = 4_194_304;

/// The consensus that says this, with the weights that follow from its method, its relays and its params.
///
/// # Errors
/// `Memory` where it has 2^22 relays or more.
pub fn weighted_consensus(facts: ConsensusFacts) -> Result<Consensus, Memory>
    ensures value { IfOk result (λ consensus. consensus ≡ weighted_consensus facts) }
    ensures facts { IfOk result (λ consensus. consensus.facts ≡ facts) }
{
    if facts.routers.len() >= TOO_MANY_RELAYS {
        return Err(Memory);
    }
    let weights = relay_weights(facts.method, facts.routers.as_slice(), &facts.lists.params);
    Ok(Consensus { facts, weights })
}
