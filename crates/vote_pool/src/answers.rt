// What keeping a descriptor answers.
ghost use Rattle.std.specs.Prelude.{◌≡◌, ◌<◌, true, None};
ghost use Rattle.vote_pool.specs.Pools as pools;

use crate::rank::{DescriptorRank, is_newer, is_same_rank};

/// So many relays may have a descriptor in a pool.
pub(crate) const MOST_RELAYS: usize = 16_384;

/// What keeping a descriptor answers; of several the first of `Have`, `Older`, `Worn` and `PoolFull`.
#[derive(Clone, Copy)]
pub enum Keep {
    /// None of the relay was held. This one is now.
    Kept,
    /// This one is held now, in place of an older one.
    Replaced,
    /// One of this rank is held already. It stays.
    Have,
    /// One of this greater rank is held. It stays.
    Older { held: DescriptorRank },
    /// The pool has changed 4,294,967,295 times, and changes no more.
    Worn,
    /// None of the relay is held, and 16,384 of others are.
    PoolFull,
}

impl Keep {
    /// Whether the pool has changed.
    pub fn is_change(&self) -> bool
        ensures { result ≡ pools.is_change self.now }
    {
        matches!(self, Keep::Kept | Keep::Replaced)
    }
}

/// What is answered of a relay of which none is held, where so many descriptors are, after so many changes.
fn answer_to_new(count: usize, changes: u32) -> Keep
    ensures answer { result ≡ pools.answer_to_new count changes }
    ensures may_change { pools.MayChange changes result }
    ensures room { pools.is_change result ≡ true → count < pools.most_relays }
{
    if changes == u32::MAX {
        Keep::Worn
    } else if count >= MOST_RELAYS {
        Keep::PoolFull
    } else {
        Keep::Kept
    }
}

/// What is answered of a descriptor beside another of its relay, after so many changes.
fn answer_beside(held: &DescriptorRank, rank: &DescriptorRank, changes: u32) -> Keep
    ensures answer { result ≡ pools.answer_beside held.now rank.now changes }
    ensures may_change { pools.MayChange changes result }
{
    if is_same_rank(held, rank) {
        Keep::Have
    } else if is_newer(held, rank) {
        Keep::Older { held: *held }
    } else if changes == u32::MAX {
        Keep::Worn
    } else {
        Keep::Replaced
    }
}

/// What is answered of a descriptor of a rank, by the rank that is held of its relay.
pub(crate) fn answer_for(
    held: &Option<DescriptorRank>,
    rank: &DescriptorRank,
    count: usize,
    changes: u32,
) -> Keep
    ensures answer { result ≡ pools.answer_for held.now rank.now count changes }
    ensures may_change { pools.MayChange changes result }
    ensures room { held.now ≡ None → pools.is_change result ≡ true → count < pools.most_relays }
{
    match held {
        None => answer_to_new(count, changes),
        Some(held) => answer_beside(held, rank, changes),
    }
}

/// How many changes there were, with this one.
pub(crate) fn changes_after(changes: u32, answer: &Keep) -> u32
    requires { pools.MayChange changes answer.now }
    ensures { result ≡ pools.changes_after changes answer.now }
{
    if answer.is_change() {
        changes + 1
    } else {
        changes
    }
}
