// The next entries of votes.
ghost use Rattle.std.specs.Prelude.{◌≡◌, ◌<◌, ◌≤◌, ◌+◌, ◌^◌, [], true, IsSome, None, length, drop, map, vec_capacity};
ghost use Rattle.relay_select.specs.Cursors as cursors;

use compute_terms::Belong;
use dir_values::Fingerprint;
use vote_doc::Accepted;

/// The identity of the entry at a place of a vote, if there is an entry.
pub fn head(votes: &Accepted, number: usize, place: usize) -> Option<Fingerprint>
    requires { number < length votes.now.votes }
    ensures value { result ≡ cursors.first_identity (drop place (cursors.entries_in votes.now.votes number)) }
    ensures within { IsSome result → place + 1 < 2 ^ 64 }
{
    let vote = votes.vote(number).vote();
    if place < vote.len() {
        Some(vote.entry(place).identity())
    } else {
        None
    }
}

/// The least identity of those that stand first at their places.
pub fn least(votes: &Accepted, places: &[usize]) -> Option<Fingerprint>
    requires { length places.now ≡ length votes.now.votes }
    ensures { result ≡ cursors.least_from None (cursors.cursors votes.now.votes places.now) }
{
    let mut best = None;
    'votes: for number in 0..votes.len() {
        best = lesser(best, head(votes, number, places[number]));
    }
    best
}

fn lesser(best: Option<Fingerprint>, head: Option<Fingerprint>) -> Option<Fingerprint>
    ensures { result ≡ cursors.lesser best head }
{
    match (best, head) {
        (best, None) => best,
        (None, Some(head)) => Some(head),
        (Some(best), Some(head)) => {
            if head.is_below(&best) {
                Some(head)
            } else {
                Some(best)
            }
        }
    }
}

/// Whether the next entry of a vote has this identity.
pub fn is_next(votes: &Accepted, number: usize, place: usize, identity: &Fingerprint) -> bool
    requires { number < length votes.now.votes }
    ensures value { result ≡ cursors.is_next (drop place (cursors.entries_in votes.now.votes number)) identity.now }
    ensures within { result ≡ true → place + 1 < 2 ^ 64 }
{
    match head(votes, number, place) {
        Some(head) => head.is_same(identity),
        None => false,
    }
}

/// Puts the next entries of this identity into a group, and goes behind them.
pub fn take(votes: &Accepted, places: &mut [usize], identity: &Fingerprint, group: &mut Vec<Belong>)
    requires places { length places.old ≡ length votes.now.votes }
    requires empty { group.old.items ≡ [] }
    requires room { length votes.now.votes ≤ vec_capacity group.old }
    ensures group { group.new.items ≡ cursors.next_from 0 (cursors.cursors votes.now.votes places.old) identity.now }
    ensures places { cursors.cursors votes.now.votes places.new ≡ map (cursors.past identity.now) (cursors.cursors votes.now.votes places.old) }
    ensures capacity { vec_capacity group.old ≤ vec_capacity group.new }
{
    'votes: for number in 0..votes.len() {
        let place = places[number];
        if is_next(votes, number, place, identity) {
            group.push_reserved(Belong {
                vote: number,
                entry: place,
            });
            places[number] = place + 1;
        }
    }
}
