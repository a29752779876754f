// Where the microdescriptors that are asked for stand in a pool.
ghost use Rattle.std.specs.{Prelude.{◌≡◌, ◌<◌, All, IfOk, filter, length}, Cmp.Lexicographic.slice_cmp, List.list_any};
ghost use Rattle.std.specs.{List.Sorted.{IsPermutation, IsSorted}, Ordering.nat_cmp, Str.bytes_eq};
ghost use Rattle.serve_answers.specs.Places as lending;

use dir_bytes::Memory;
use key_port::Verifier;
use std::alloc::Global;
use vote_pool::Pool;

/// Digests in ascending order.
fn ascending(alloc: Global, digests: &[[u8; 32]]) -> Result<Vec<[u8; 32]>, Memory>
    ensures same { IfOk result (λ sorted. IsPermutation digests.now sorted.items) }
    ensures sorted { IfOk result (λ sorted. IsSorted (slice_cmp nat_cmp) sorted.items) }
{
    let mut sorted = Vec::from_slice(alloc, digests)?;
    sorted.sort_unstable();
    Ok(sorted)
}

/// Whether a digest is one of those that ascend. It is looked for by halves.
fn is_among(sorted: &[[u8; 32]], digest: &[u8; 32]) -> bool
    requires { IsSorted (slice_cmp nat_cmp) sorted.now }
    ensures { result ≡ list_any (λ one. bytes_eq one digest.now) sorted.now }
{
    sorted.binary_search(digest).is_ok()
}

/// Whether one of two digests is among those that ascend.
fn has_one(sorted: &[[u8; 32]], first: &[u8; 32], second: &[u8; 32]) -> bool
    requires { IsSorted (slice_cmp nat_cmp) sorted.now }
    ensures { result ≡ lending.has_one sorted.now first.now second.now }
{
    is_among(sorted, first) || is_among(sorted, second)
}

/// The places in a pool of all entries of which a microdescriptor has one of these digests, in one pass.
pub(crate) fn places<V: Verifier>(
    alloc: Global,
    pool: &Pool<V>,
    digests: &[[u8; 32]],
) -> Result<Vec<usize>, Memory>
    ensures within { IfOk result (λ places. All (λ place. place < length pool.now.descriptors) places.items) }
    ensures value { IfOk result (λ places. lending.at_places pool.now.descriptors places.items ≡ filter (lending.is_asked digests.now) pool.now.descriptors) }
{
    let sorted = ascending(alloc, digests)?;
    let mut places = Vec::new(alloc);
    'entries: for i in 0..pool.len() {
        let entry = pool.entry(i);
        if has_one(&sorted, &entry.micro_digest().0, &entry.family_digest().0) {
            places.push(i)?;
        }
    }
    Ok(places)
}
