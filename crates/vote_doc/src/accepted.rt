// The votes that are held, one for each authority.
ghost use Rattle.std.specs.Prelude.{◌≡◌, ◌≤◌, ◌<◌, ◌⊎◌, [], length, option_map, true, vec_len, vec_capacity, IfOk};
ghost use Rattle.std.specs.Prelude.{IsSome, slice_index_or};
ghost use Rattle.vote_terms.specs.{Votes.{is_above, rank_of}, Held.{votes_with, rival, vote_of, VotesAscend}};
ghost use Rattle.vote_doc.specs.Holdings.{MayPlace, against, placing_answer};
ghost use Rattle.vote_doc.specs.Lending as lending;

use crate::held::HeldVote;
use dir_bytes::Memory;
use dir_values::Fingerprint;
use std::alloc::Global;
use std::marker::Model;
use vote_terms::Rank;

/// The votes that are held, in strictly ascending order of their identities, so at most one for each authority.
#[derive(Drop)]
pub struct Accepted {
    votes: Vec<HeldVote>,
    room: u32,
}

impl Model for Accepted {
    ghost use Rattle.std.specs.Prelude.{vec_capacity};
    ghost use Rattle.vote_doc.specs.Holdings.{Holding, IsHolding};

    ghost Value = { Holding };

    ghost view = { λ a. record { room = a.room; votes = a.votes.items } };

    ghost invariant = { λ a. IsHolding a.votes.items a.room (vec_capacity a.votes) };
}

/// What placing a vote answers.
#[derive(Clone, Copy, Debug, PartialEq, Eq)]
pub enum Placed {
    /// No vote of the authority was held. This one is now.
    Kept,
    /// This vote is held now, in place of one of this smaller rank.
    Replaced { old: Rank },
    /// A vote of this rank is held already, which is this vote's too. It stays.
    Have { held: Rank },
    /// A vote of this greater rank is held. It stays.
    Older { held: Rank },
}

/// Whether a rank is above another.
fn is_above(a: &Rank, b: &Rank) -> bool
    ensures { result ≡ is_above a.now b.now }
{
    a.published > b.published
        || (a.published == b.published && b.whole.0.as_slice().cmp(a.whole.0.as_slice()).is_lt())
}

/// What placing a vote of a rank answers where one of another rank is held of its authority.
fn against(new: &Rank, old: &Rank) -> Placed
    ensures { result ≡ against new.now old.now }
{
    if is_above(new, old) {
        Placed::Replaced { old: *old }
    } else if is_above(old, new) {
        Placed::Older { held: *old }
    } else {
        Placed::Have { held: *old }
    }
}

/// What placing a vote answers where one of this rank is held of its authority. Of a vote that was published at another
/// moment the digest is not asked for.
fn against_held(new: &HeldVote, old: &Rank) -> Placed
    ensures { result ≡ against (rank_of new.now) old.now }
{
    let published = new.vote().published();
    if published > old.published {
        Placed::Replaced { old: *old }
    } else if published < old.published {
        Placed::Older { held: *old }
    } else {
        against(&new.rank(), old)
    }
}

/// Whether a vote outranks one of this rank. Of a vote that was published at another moment the digest is not asked for;
/// where it is, it is known from then on, and is not computed for the bytes of the other vote, whose digest is known.
fn outranks(new: &mut HeldVote, other: &HeldVote, old: &Rank) -> bool
    ensures above { result ≡ is_above (rank_of new.old) old.now }
    ensures same { new.new ≡ new.old }
{
    let published = new.vote().published();
    if published != old.published {
        return published > old.published;
    }
    new.learn_from(other);
    is_above(&new.known_rank(), old)
}

impl Accepted {
    /// No votes, of which so many may be held.
    ///
    /// # Errors
    /// `Memory` is want of memory.
    pub fn new(alloc: Global, room: u32) -> Result<Accepted, Memory>
        ensures { IfOk result (λ held. held ≡ record { room = room; votes = [] }) }
    {
        let votes = Vec::with_capacity(alloc, room as usize)?;
        Ok(Accepted { votes, room })
    }

    /// How many votes are held.
    pub fn len(&self) -> usize
        ensures { result ≡ length self.now.votes }
    {
        self.votes.len()
    }

    /// The held vote with this number, from 0.
    pub fn vote(&self, i: usize) -> &HeldVote
        requires { i < length self.now.votes }
        ensures { result.now ≡ slice_index_or self.now.votes i result.now }
    {
        &self.votes[i]
    }

    /// The held vote of an authority, if there is one. The held votes ascend, and are no more than may be held.
    pub fn vote_of(&self, authority: &Fingerprint) -> Option<&HeldVote>
        ensures value { option_map (λ held. held.now) result ≡ vote_of self.now.votes authority.now }
        ensures ascending { VotesAscend self.now.votes }
        ensures room { length self.now.votes ≤ self.now.room }
    {
        held_of(&self.votes, authority)
    }

    /// Lets go of all votes, and keeps the room for them.
    pub fn clear(&mut self)
        ensures { self.new ≡ record self.old { votes = [] } }
    {
        self.votes.clear();
    }

    /// Takes a vote into its place, where its authority is held or there is room. Of two votes of one authority the one
    /// of greater rank is held, and of equal ranks the one that was placed first. Takes no memory.
    pub fn place(&mut self, held: HeldVote) -> Placed
        requires { MayPlace self.old held }
        ensures votes { self.new ≡ record self.old { votes = votes_with self.old.votes held } }
        ensures answer { result ≡ placing_answer self.old.votes held }
    {
        put(&mut self.votes, held)
    }
}

/// Puts a vote into its place among votes that ascend.
fn put(votes: &mut Vec<HeldVote>, held: HeldVote) -> Placed
    requires { IsSome (rival votes.old.items held) ⊎ (vec_len votes.old < vec_capacity votes.old) }
    ensures votes { votes.new.items ≡ votes_with votes.old.items held }
    ensures capacity { vec_capacity votes.old ≤ vec_capacity votes.new }
    ensures answer { result ≡ placing_answer votes.old.items held }
{
    let authority = held.vote().identity();
    let at = slot(votes, &authority);
    match rank_at(votes, at, &authority) {
        None => match votes.insert(at, held) {
            Ok(()) => Placed::Kept,
            Err(_) => unreachable!(),
        },
        Some(old) => {
            let mut held = held;
            if outranks(&mut held, &votes[at], &old) {
                votes[at] = held;
                Placed::Replaced { old }
            } else {
                against_held(&held, &old)
            }
        }
    }
}

/// The vote of an authority, if there is one.
fn held_of<'a>(votes: &'a [HeldVote], authority: &Fingerprint) -> Option<&'a HeldVote>
    ensures { option_map (λ held. held.now) result ≡ vote_of votes.now authority.now }
{
    'votes: for held in votes {
        if held.vote().identity().is_same(authority) {
            return Some(held);
        }
    }
    None
}

/// How many of the votes come before an authority.
fn slot(votes: &[HeldVote], authority: &Fingerprint) -> usize
    ensures count { result ≡ lending.slot_of votes.now authority.now }
    ensures within { result ≤ length votes.now }
{
    votes
        .iter()
        .take_while(|held| held.vote().identity().is_below(authority))
        .count()
}

/// The rank of the vote at a place, if it is of the authority. Its digest is known from then on.
fn rank_at(votes: &mut Vec<HeldVote>, place: usize, authority: &Fingerprint) -> Option<Rank>
    ensures rank { result ≡ lending.rank_at votes.old.items place authority.now }
    ensures same { votes.new.items ≡ votes.old.items }
    ensures len { vec_len votes.new ≡ vec_len votes.old }
    ensures capacity { vec_capacity votes.new ≡ vec_capacity votes.old }
    ensures within { IsSome result → place < vec_len votes.old }
{
    if !is_of(votes, place, authority) {
        return None;
    }
    Some(votes[place].known_rank())
}

/// Whether a vote of the authority stands at a place.
fn is_of(votes: &[HeldVote], place: usize, authority: &Fingerprint) -> bool
    ensures of { result ≡ lending.is_of votes.now place authority.now }
    ensures within { result ≡ true → place < length votes.now }
{
    match votes.get(place) {
        Some(held) => held.vote().identity().is_same(authority),
        None => false,
    }
}
