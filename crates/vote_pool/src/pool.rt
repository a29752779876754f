// The descriptors that are held, one of each relay.
ghost use Rattle.std.specs.Prelude.{◌≡◌, ◌≤◌, ◌<◌, [], IfOk, length, slice_index_or};
ghost use Rattle.vote_pool.specs.Pools as pools;

use crate::answers::{Keep, MOST_RELAYS, changes_after};
use crate::entry::PoolEntry;
use crate::keeping::put;
use dir_bytes::Memory;
use key_port::Verifier;
use std::alloc::Global;
use std::marker::Model;

/// The descriptors that are held, in strictly ascending order of their identities, so at most one of each relay, and at most
/// 16,384; and how often they have changed.
#[derive(Drop)]
pub struct Pool<V: Verifier> {
    entries: Vec<PoolEntry<V>>,
    changes: u32,
}

impl<V: Verifier> Model for Pool<V> {
    ghost use Rattle.std.specs.Prelude.{vec_capacity};
    ghost use Rattle.vote_pool.specs.Pools.{Pooled, IsPooled};

    ghost Value = { Pooled };

    ghost view = { λ p. record { descriptors = p.entries.items; changes = p.changes } };

    ghost invariant = { λ p. IsPooled p.entries.items (vec_capacity p.entries) };
}

impl<V: Verifier> Pool<V> {
    /// No descriptors, with room for as many as may be held.
    ///
    /// # Errors
    /// `Memory` is want of memory.
    pub fn new(alloc: Global) -> Result<Pool<V>, Memory>
        ensures { IfOk result (λ pool. pool ≡ record { descriptors = []; changes = 0 }) }
    {
        let entries = Vec::with_capacity(alloc, MOST_RELAYS)?;
        Ok(Pool {
            entries,
            changes: 0,
        })
    }

    /// How many descriptors are held. They ascend by identity, and are no more than 16,384.
    pub fn len(&self) -> usize
        ensures value { result ≡ length self.now.descriptors }
        ensures few { result ≤ pools.most_relays }
        ensures ascending { pools.DescriptorsAscend self.now.descriptors }
    {
        self.entries.len()
    }

    /// The entry with this number, from 0, in ascending order of the identities.
    pub fn entry(&self, i: usize) -> &PoolEntry<V>
        requires { i < length self.now.descriptors }
        ensures { result.now ≡ slice_index_or self.now.descriptors i result.now }
    {
        &self.entries[i]
    }

    /// How often the descriptors that are held have changed: how often `keep` answered `Kept` or `Replaced`.
    pub fn changes(&self) -> u32
        ensures { result ≡ self.now.changes }
    {
        self.changes
    }

    /// Keeps a descriptor, unless one of its relay of the same or of greater rank is held, the pool has changed as often as it
    /// may, or the relay is a new one and the pool is full. Of two descriptors of one relay the one of greater rank is held.
    /// Takes no memory.
    pub fn keep(&mut self, entry: PoolEntry<V>) -> Keep
        ensures answer { result ≡ pools.answer_to self.old entry }
        ensures pool { self.new ≡ pools.pool_after self.old entry }
    {
        let answer = put(&mut self.entries, self.changes, entry);
        self.changes = changes_after(self.changes, &answer);
        answer
    }
}
