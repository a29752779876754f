// What is known of each relay when its flags are assigned.
ghost use Rattle.std.specs.Prelude.{◌≡◌, IfOk};
ghost use Rattle.vote_maker.specs.Relays as relay_terms;

use crate::measures::Measures;
use descriptor_doc::BandwidthLine;
use dir_bytes::Memory;
use dir_values::PortSummary;
use flag_rules::RelayFacts;
use key_port::Verifier;
use std::alloc::Global;
use vote_pool::{Pool, PoolEntry};

/// What a relay says that it carries, in kilobytes a second: the smaller of its average and of what it was seen to
/// carry, and no more than a vote can tell.
pub fn kilobytes_of(line: &BandwidthLine) -> u32
    ensures { result ≡ relay_terms.kilobytes_of line.now }
{
    let kilobytes = line.average.min(line.observed) / 1000;
    kilobytes.min(u32::MAX as u64) as u32
}

/// Whether ports are accepted that the web uses: 80 and 443.
pub fn accepts_web(summary: &PortSummary) -> bool
    ensures { result ≡ relay_terms.accepts_web summary.now }
{
    summary.accepts(80) && summary.accepts(443)
}

/// What is known of a relay: what its descriptor says, and what was measured of it.
fn known_of<V: Verifier>(measures: &Measures, entry: &PoolEntry<V>) -> RelayFacts
    ensures { result ≡ relay_terms.known_of measures.now entry.now }
{
    let descriptor = entry.descriptor();
    RelayFacts {
        identity: descriptor.identity,
        published: descriptor.published,
        ip: descriptor.router.ip,
        dir_port: descriptor.router.dir_port,
        tunnelled: descriptor.tunnelled_dir_server,
        hibernating: descriptor.hibernating.unwrap_or(false),
        uptime: descriptor.uptime.unwrap_or(0),
        bandwidth_kb: kilobytes_of(&descriptor.bandwidth),
        exit_web: accepts_web(entry.summary()),
        measured: measures.measured(&descriptor.identity),
    }
}

/// What is known of each relay of a pool, in its order.
///
/// # Errors
/// `Memory` is want of memory.
pub(crate) fn known_relays<V: Verifier>(
    alloc: Global,
    pool: &Pool<V>,
    measures: &Measures,
) -> Result<Vec<RelayFacts>, Memory>
    ensures { IfOk result (λ known. known.items ≡ relay_terms.known_relays measures.now pool.now.descriptors) }
{
    let mut known = Vec::with_capacity(alloc, pool.len())?;
    'relays: for i in 0..pool.len() {
        known.push(known_of(measures, pool.entry(i)))?;
    }
    Ok(known)
}
