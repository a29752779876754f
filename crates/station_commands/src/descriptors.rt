// The descriptors behind what a station is given, checked and kept one by one.
ghost use Rattle.std.specs.Prelude.{◌≡◌, ◌≤◌, ◌<◌, ◌^◌, Err, IfOk, length};
ghost use Rattle.dir_bytes.specs.Causes.{Rose};
ghost use Rattle.key_port.specs.Answers.{rules};
ghost use Rattle.descriptor_doc.specs.Reading.{IsRead};
ghost use Rattle.blank_lines.specs.Behind as behind;
ghost use Rattle.blank_lines.specs.Behind.{FitsBehind};
ghost use Rattle.station_commands.specs.Descriptors as descriptors;
ghost use Rattle.station_commands.specs.Reads as reads;

use crate::refusal::PoolRefusal;
use crate::told::descriptor_refused;
use blank_lines::{ends_at, refusal_behind};
use bytes::Bytes;
use count_terms::Newest;
use daemon_words::Stop;
use descriptor_doc::{Descriptor, check, read_under};
use frame_terms::ReadRefusal;
use key_port::Verifier;
use std::alloc::Global;
use vote_pool::{Keep, Pool, PoolEntry, prepare};

/// A refusal of what stands from a place on, by its place in the input.
pub fn from_place(place: usize, refusal: ReadRefusal) -> ReadRefusal
    requires { FitsBehind place refusal }
    ensures { result ≡ behind.refusal_behind place refusal }
{
    refusal_behind(place as u64, refusal)
}

/// The descriptor that stands in the input from a place on, as an authority reads it whose newest method is this, and the place
/// behind it. It shares the input's bytes.
///
/// # Errors
/// `Frame` is the first fault of what stands there, with its place in the input. `Memory` is want of memory.
fn read_at(
    alloc: Global,
    newest: Newest,
    bytes: &Bytes,
    place: usize,
) -> Result<(Descriptor, usize), ReadRefusal>
    requires within { place ≤ length bytes.now }
    requires short { length bytes.now < 2 ^ 61 }
    ensures reads { reads.ReadsAt newest place bytes.now result }
    ensures read { IfOk result (λ found. IsRead found.0) }
{
    let rest = bytes.slice(place..)?;
    match read_under(alloc, newest, &rest) {
        Ok((descriptor, used)) => Ok((descriptor, place + used)),
        Err(refusal) => Err(from_place(place, refusal)),
    }
}

/// What is kept of the descriptor with this number, which stands in the input from a place on, and the place behind it.
fn entry_at<V: Verifier>(
    alloc: Global,
    newest: Newest,
    bytes: &Bytes,
    place: usize,
    number: u64,
    verifier: &mut V,
) -> Result<(PoolEntry<V>, usize), Stop<PoolRefusal>>
    requires within { place ≤ length bytes.now }
    requires short { length bytes.now < 2 ^ 61 }
    ensures gives { reads.GivesEntry (rules V.may_accept V.may_refuse) newest place number bytes.now result }
    ensures fault { result ≡ Err (Stop.Refused PoolRefusal.Verifier) → Rose (V.faults verifier.old) (V.faults verifier.new) }
    ensures faults { V.faults verifier.old ≤ V.faults verifier.new }
    ensures told { V.faults verifier.old < V.faults verifier.new → result ≡ Err (Stop.Refused PoolRefusal.Verifier) }
{
    let (descriptor, after) = match read_at(alloc, newest, bytes, place) {
        Ok((descriptor, after)) => (descriptor, after),
        Err(ReadRefusal::Frame(fault)) => return Err(Stop::Refused(PoolRefusal::Fault(fault))),
        Err(ReadRefusal::Memory) => return Err(Stop::Memory),
    };
    match check(descriptor, verifier) {
        Ok(checked) => Ok((prepare(alloc, checked)?, after)),
        Err(refusal) => Err(Stop::Refused(descriptor_refused(number, refusal))),
    }
}

/// The pool of the descriptors that stand in the input from a place on: each is read by an authority whose newest method is this,
/// checked and kept in turn.
///
/// # Errors
/// `Refused` by the first that applies: the first fault of a descriptor, or the first that does not hold, with its number from
/// 1, or `Verifier` where the verifier's count of faults rose; and behind all of them `Full`, where one of them found the pool
/// full. `Memory` is want of memory.
pub fn pool_of<V: Verifier>(
    alloc: Global,
    newest: Newest,
    bytes: &Bytes,
    start: usize,
    verifier: &mut V,
) -> Result<Pool<V>, Stop<PoolRefusal>>
    requires within { start ≤ length bytes.now }
    requires short { length bytes.now < 2 ^ 61 }
    ensures gives { descriptors.GivesPool (rules V.may_accept V.may_refuse) newest start bytes.now result }
    ensures fault { result ≡ Err (Stop.Refused PoolRefusal.Verifier) → Rose (V.faults verifier.old) (V.faults verifier.new) }
    ensures faults { V.faults verifier.old ≤ V.faults verifier.new }
    ensures told { V.faults verifier.old < V.faults verifier.new → result ≡ Err (Stop.Refused PoolRefusal.Verifier) }
{
    let mut pool = Pool::new(alloc)?;
    let mut place = start;
    let mut number = 0;
    let mut full = false;
    'descriptors: while !ends_at(bytes, place) {
        number += 1;
        let (entry, after) = entry_at(alloc, newest, bytes, place, number, verifier)?;
        let found_full = keep(&mut pool, entry);
        full = full || found_full;
        place = after;
    }
    if full {
        return Err(Stop::Refused(PoolRefusal::Full));
    }
    Ok(pool)
}

/// Keeps a descriptor, and says whether it found the pool full.
fn keep<V: Verifier>(pool: &mut Pool<V>, entry: PoolEntry<V>) -> bool
    ensures full { result ≡ descriptors.is_full pool.old entry }
    ensures pool { pool.new ≡ descriptors.kept_pool pool.old entry }
{
    matches!(pool.keep(entry), Keep::PoolFull)
}
