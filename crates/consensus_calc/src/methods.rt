// The method of a consensus.
ghost use Rattle.std.specs.Prelude.{◌≡◌, [], IfOk, map, unwrap_or};
ghost use Rattle.compute_terms.specs.Methods as terms;

use count_terms::Newest;
use dir_bytes::Memory;
use dir_values::numbers_in;
use std::alloc::Global;
use vote_doc::{Accepted, Vote};

/// The method that the votes choose, where this is the newest that is known.
pub fn chosen_method(alloc: Global, newest: Newest, votes: &Accepted) -> Result<u32, Memory>
    ensures { IfOk result (λ method. method ≡ terms.chosen_method newest votes.now.votes) }
{
    let lists = listed_methods(alloc, votes)?;
    Ok(field_votes::method(newest, &lists))
}

/// The methods that each vote lists, none where it has no such line.
fn listed_methods(alloc: Global, votes: &Accepted) -> Result<Vec<Vec<u32>>, Memory>
    ensures { IfOk result (λ lists. map (λ list. list.items) lists.items ≡ terms.listed_methods votes.now.votes) }
{
    let mut lists = Vec::with_capacity(alloc, votes.len())?;
    'votes: for i in 0..votes.len() {
        lists.push(methods_of(alloc, votes.vote(i).vote())?)?;
    }
    Ok(lists)
}

/// The methods that a vote lists, none where it has no such line.
fn methods_of(alloc: Global, vote: &Vote) -> Result<Vec<u32>, Memory>
    ensures { IfOk result (λ methods. methods.items ≡ unwrap_or vote.now.says.methods []) }
{
    match vote.methods() {
        Some(text) => Ok(numbers_in(alloc, text)?.into_vec()),
        None => Ok(Vec::new(alloc)),
    }
}
