// Where a descriptor is kept among those that ascend.
ghost use Rattle.std.specs.Prelude.{◌≡◌, ◌≤◌, ◌<◌, true, false, IsSome, is_some, length, vec_len, vec_capacity};
ghost use Rattle.vote_pool.specs.Lending as lending;
ghost use Rattle.vote_pool.specs.Pools as pools;

use crate::answers::{Keep, answer_for};
use crate::entry::PoolEntry;
use crate::rank::DescriptorRank;
use dir_values::Fingerprint;
use key_port::Verifier;

/// How many entries come before an identity. It is found by halves.
fn place_of<V: Verifier>(entries: &[PoolEntry<V>], identity: &Fingerprint) -> usize
    requires { pools.DescriptorsAscend entries.now }
    ensures count { result ≡ lending.place_of entries.now identity.now }
    ensures within { result ≤ length entries.now }
{
    entries.partition_point(|entry| entry.identity().is_below(identity))
}

/// The rank of the entry at a place, if it is of the identity.
fn rank_at<V: Verifier>(
    entries: &[PoolEntry<V>],
    place: usize,
    identity: &Fingerprint,
) -> Option<DescriptorRank>
    ensures rank { result ≡ lending.rank_at entries.now place identity.now }
    ensures within { IsSome result → place < length entries.now }
{
    let entry = entries.get(place)?;
    if entry.identity().is_same(identity) {
        Some(entry.rank())
    } else {
        None
    }
}

/// Puts an entry at a place, where it stands in place of the one that is there, or before it.
fn put_at<V: Verifier>(
    entries: &mut Vec<PoolEntry<V>>,
    place: usize,
    replaces: bool,
    entry: PoolEntry<V>,
)
    requires there { replaces ≡ true → place < vec_len entries.old }
    requires within { place ≤ vec_len entries.old }
    requires room { replaces ≡ false → vec_len entries.old < vec_capacity entries.old }
    ensures entries { entries.new.items ≡ lending.put_at entries.old.items place replaces entry }
    ensures len { vec_len entries.new ≡ lending.len_after (vec_len entries.old) replaces }
    ensures capacity { vec_capacity entries.old ≤ vec_capacity entries.new }
{
    if replaces {
        entries[place] = entry;
        return;
    }
    match entries.insert(place, entry) {
        Ok(()) => (),
        Err(_) => unreachable!(),
    }
}

/// Puts an entry into its place among entries that ascend, unless the answer is that nothing changes.
pub(crate) fn put<V: Verifier>(
    entries: &mut Vec<PoolEntry<V>>,
    changes: u32,
    entry: PoolEntry<V>,
) -> Keep
    requires ascend { pools.DescriptorsAscend entries.old.items }
    requires few { vec_len entries.old ≤ pools.most_relays }
    requires room { pools.most_relays ≤ vec_capacity entries.old }
    ensures answer { result ≡ pools.answer_among entries.old.items changes entry }
    ensures entries { entries.new.items ≡ pools.descriptors_after entries.old.items entry result }
    ensures may_change { pools.MayChange changes result }
    ensures few { vec_len entries.new ≤ pools.most_relays }
    ensures room { pools.most_relays ≤ vec_capacity entries.new }
{
    let rank = entry.rank();
    let identity = entry.identity();
    let place = place_of(entries, &identity);
    let held = rank_at(entries, place, &identity);
    let answer = answer_for(&held, &rank, entries.len(), changes);
    if !answer.is_change() {
        return answer;
    }
    put_at(entries, place, held.is_some(), entry);
    answer
}
