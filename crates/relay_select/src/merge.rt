// The walk over all votes.
ghost use Rattle.std.specs.Prelude.{◌≡◌, ◌≤◌, IfOk, length, vec_capacity};
ghost use Rattle.relay_select.specs.Walks as walks;

use crate::heads::{least, take};
use compute_terms::Belong;
use dir_bytes::Memory;
use dir_values::Fingerprint;
use std::alloc::Global;
use std::marker::Model;
use vote_doc::Accepted;

/// A walk over the entries of all votes, ascending by RSA identity, with one cursor for each vote. Contracts see it as the
/// groups that are left.
#[derive(Drop)]
pub struct Merge<'a> {
    votes: &'a Accepted,
    places: Vec<usize>,
}

impl<'a> Model for Merge<'a> {
    ghost use Rattle.std.specs.Prelude.{◌≡◌, length};
    ghost use Rattle.relay_select.specs.{Walks.Walk, Cursors.{cursors, groups_left, AllAscend}};

    ghost Value = { Walk };

    ghost view = { λ m. record { votes = length m.votes.now.votes; left = groups_left (cursors m.votes.now.votes m.places.items) } };

    ghost invariant = { λ m. (length m.places.items ≡ length m.votes.now.votes) × AllAscend m.votes.now.votes };
}

impl<'a> Merge<'a> {
    /// The walk over all entries of these votes.
    ///
    /// # Errors
    /// `Memory` is want of memory.
    pub fn new(alloc: Global, votes: &'a Accepted) -> Result<Merge<'a>, Memory>
        ensures { IfOk result (λ walk. walk ≡ record { votes = length votes.now.votes; left = walks.groups votes.now.votes }) }
    {
        let count = votes.len();
        let mut places = Vec::with_capacity(alloc, count)?;
        'votes: for i in 0..count {
            let _entries = votes.vote(i).vote().len();
            places.push(0)?;
        }
        Ok(Merge { votes, places })
    }

    /// Replaces what is in `group` by the places of all entries of the least RSA identity that was not given yet, in the order of
    /// the votes, and gives that identity. `None`, with `group` empty, exactly where every entry was given. Takes no memory.
    pub fn next(&mut self, group: &mut Vec<Belong>) -> Option<Fingerprint>
        requires { self.old.votes ≤ vec_capacity group.old }
        ensures gives { walks.Gives self.old result group.new.items self.new }
        ensures capacity { vec_capacity group.old ≤ vec_capacity group.new }
    {
        group.clear();
        let identity = least(self.votes, &self.places)?;
        take(self.votes, &mut self.places, &identity, group);
        Some(identity)
    }
}
