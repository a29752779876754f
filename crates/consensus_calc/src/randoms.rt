// The shared random values of a consensus.
ghost use Rattle.std.specs.Prelude.{◌≡◌, ◌≤◌, length};
ghost use Rattle.compute_terms.specs.Randoms as terms;

use relay_select::over;
use value_groups::{RandomLine, SharedRandom};
use vote_doc::{Accepted, Vote};

/// What a vote says on a line.
fn random_of(line: RandomLine, vote: &Vote) -> Option<SharedRandom>
    ensures { result ≡ terms.random_of line vote.now }
{
    match line {
        RandomLine::Previous => vote.random_previous(),
        RandomLine::Current => vote.random_current(),
    }
}

/// Whether this is a shared random value, with this count.
fn is_random(random: &SharedRandom, said: Option<SharedRandom>) -> bool
    ensures { result ≡ terms.is_random random.now said }
{
    match said {
        Some(other) => random.is_same(&other),
        None => false,
    }
}

/// How many votes have a shared random value on a line, with this count.
fn votes_for(line: RandomLine, votes: &Accepted, random: &SharedRandom) -> usize
    ensures count { result ≡ terms.votes_for line votes.now.votes random.now }
    ensures within { result ≤ length votes.now.votes }
{
    let mut count = 0;
    'votes: for i in 0..votes.len() {
        if is_random(random, random_of(line, votes.vote(i).vote())) {
            count += 1;
        }
    }
    count
}

/// Whether votes of more than half of a roster of so many authorities have a shared random value, and at least so many.
fn is_agreed(
    line: RandomLine,
    roster: u32,
    least: u64,
    votes: &Accepted,
    random: &SharedRandom,
) -> bool
    ensures { result ≡ terms.is_agreed line roster least votes.now.votes random.now }
{
    let count = votes_for(line, votes, random) as u64;
    over(count, roster) && least <= count
}

/// What the consensus says on a line: the shared random value that votes of more than half of a roster of so many authorities
/// have on it, and at least so many, if there is one.
pub fn agreed_random(
    line: RandomLine,
    roster: u32,
    least: u64,
    votes: &Accepted,
) -> Option<SharedRandom>
    ensures { result ≡ terms.agreed_random line roster least votes.now.votes }
{
    'votes: for i in 0..votes.len() {
        if let Some(random) = random_of(line, votes.vote(i).vote()) {
            if is_agreed(line, roster, least, votes, &random) {
                return Some(random);
            }
        }
    }
    None
}
