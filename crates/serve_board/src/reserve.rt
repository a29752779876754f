// A pool under a lock, and the event that keeps a descriptor.
ghost use Rattle.std.specs.Prelude.{◌≡◌, ◌+◌, IfSome, List, length};
ghost use Rattle.key_port.specs.Answers.{rules};
ghost use Rattle.descriptor_doc.specs.declared.descriptor.Descriptor.{Descriptor};
ghost use Rattle.vote_pool.specs.Pools.{Pooled};
ghost use Rattle.serve_board.specs.{Events.{KeepsThere, kept_entry}, Stocks.{AreKept, stock_after}, Turns.Stands};

use key_port::Verifier;
use period_lock::{Event, Storied};
use vote_pool::{Keep, Pool, PoolEntry};

/// A pool under a lock. It stands for the pool at the start and the descriptors that changed it since, which were checked
/// before they came.
#[derive(Drop)]
pub struct Reserve<V: Verifier> {
    pub(crate) pool: Pool<V>,
}

/// The count of all changes of a pool.
fn changes_of<V: Verifier>(pool: &Pool<V>) -> u64
    ensures { (start : Pooled) (story : List Descriptor)
        → Stands stock_after (AreKept (rules V.may_accept V.may_refuse)) pool.now start story
        → result ≡ start.changes + length story }
{
    u64::from(pool.changes())
}

impl<V: Verifier> Storied for Reserve<V> {
    type Start = Pool<V>;

    type Entry = PoolEntry<V>;

    ghost stands = { λ reserve start story.
        Stands stock_after (AreKept (rules V.may_accept V.may_refuse)) reserve.pool start story };

    ghost start_of = { λ reserve. reserve.pool };

    ghost front_of = { λ start. start.changes };

    fn front(&self) -> u64 {
        changes_of(&self.pool)
    }
}

/// A descriptor is kept. It is there until then.
#[derive(Drop)]
pub(crate) struct KeepEntry<V: Verifier> {
    pub(crate) entry: Option<PoolEntry<V>>,
}

impl<V: Verifier> Event<Reserve<V>> for KeepEntry<V> {
    type Reply = Option<Keep>;

    ghost answers = { λ before start story reply event. IfSome before.entry
        (λ entry. KeepsThere (rules V.may_accept V.may_refuse) entry start story reply) };

    ghost entry_of = { λ before reply event. kept_entry before.entry reply };

    fn apply(&mut self, state: &mut Reserve<V>) -> Option<Keep> {
        match self.entry.take() {
            Some(entry) => {
                let _ = entry.descriptor();
                Some(state.pool.keep(entry))
            }
            None => None,
        }
    }
}
