// What is known of a relay when an uploaded descriptor is ruled.
ghost use Rattle.std.specs.Prelude.{◌≡◌, []};
ghost use Rattle.vote_maker.specs.Relays as relay_terms;

use flag_rules::{Measured, RelayFacts};
use key_port::Verifier;
use vote_maker::{accepts_web, kilobytes_of};
use vote_pool::PoolEntry;

/// What is known of a relay of which nothing was measured.
pub(crate) fn known_of<V: Verifier>(entry: &PoolEntry<V>) -> RelayFacts
    ensures { result ≡ relay_terms.known_of [] entry.now }
{
    let descriptor = entry.descriptor();
    RelayFacts {
        identity: descriptor.identity,
        published: descriptor.published,
        ip: descriptor.router.ip,
        dir_port: descriptor.router.dir_port,
        tunnelled: descriptor.tunnelled_dir_server,
        hibernating: descriptor.hibernating.unwrap_or(false),
        uptime: descriptor.uptime.unwrap_or(0),
        bandwidth_kb: kilobytes_of(&descriptor.bandwidth),
        exit_web: accepts_web(entry.summary()),
        measured: Measured {
            reached_at: 0,
            wmtbf: 0,
            wfu_ppm: 0,
            known_for: 0,
            kb: None,
        },
    }
}
