// What a mirror asks its peers for, and takes.
ghost use Rattle.std.specs.Prelude.{◌≡◌, ◌<◌, ◌≤◌, true};
ghost use Rattle.key_port.specs.Answers.{rules};
ghost use Rattle.mirror_core.specs.States.{Mirrored};
ghost use Rattle.mirror_daemon.specs.{Asking.IsWithin, Keeping.ComesOf, Lacking.lacking_count};

use crate::asking::{Given, ask};
use crate::paths::{CERTS_PATH, CONSENSUS_PATH, micros_path};
use bytes::Bytes;
use dir_bytes::{Clock, Text};
use dir_http::Link;
use key_port::Verifier;
use mirror_core::Mirror;
use std::alloc::Global;

/// The most bytes of a response with certificates: 32 of 65,536, and a head.
const CERTS_LIMIT: u64 = 2_113_536;

/// The most bytes of a response with a consensus: 67,108,864, and a head.
const CONSENSUS_LIMIT: u64 = 67_125_248;

/// The most bytes of a response with microdescriptors: 92 of 65,536, and a head.
const MICROS_LIMIT: u64 = 6_045_696;

/// Asks a peer for its certificates, and takes them; whether the peer answered.
#[tactic(auto, using(crate::proofs::Comings::with_certs))]
fn fetch_certs<C: Clock, V: Verifier, L: Link>(
    alloc: Global,
    mirror: &mut Mirror<V>,
    address: &[u8],
    clock: &mut C,
    verifier: &mut V,
    link: &mut L,
) -> bool
    ensures came { (before : Mirrored) → ComesOf (rules V.may_accept V.may_refuse) before mirror.old → ComesOf (rules V.may_accept V.may_refuse) before mirror.new }
    ensures clock { C.asks clock.old ≤ C.asks clock.new }
    ensures verifier { V.faults verifier.old ≤ V.faults verifier.new }
    ensures link { L.faults link.old ≤ L.faults link.new }
{
    match ask(alloc, link, address, CERTS_PATH, CERTS_LIMIT) {
        Given::Document(body) => {
            let now = clock.now();
            let _ = mirror.take_certs(&body, now, verifier);
            true
        }
        Given::Nothing => true,
        Given::Failed => false,
    }
}

/// Asks a peer for its consensus, and takes it; whether the peer answered.
#[tactic(auto, using(crate::proofs::Comings::with_consensus))]
fn fetch_consensus<V: Verifier, L: Link>(
    alloc: Global,
    mirror: &mut Mirror<V>,
    address: &[u8],
    verifier: &mut V,
    link: &mut L,
) -> bool
    ensures came { (before : Mirrored) → ComesOf (rules V.may_accept V.may_refuse) before mirror.old → ComesOf (rules V.may_accept V.may_refuse) before mirror.new }
    ensures verifier { V.faults verifier.old ≤ V.faults verifier.new }
    ensures link { L.faults link.old ≤ L.faults link.new }
{
    let body = match ask(alloc, link, address, CONSENSUS_PATH, CONSENSUS_LIMIT) {
        Given::Document(body) => body,
        Given::Nothing => return true,
        Given::Failed => return false,
    };
    let Ok(bytes) = Bytes::from_vec(body) else {
        return true;
    };
    let _ = mirror.take_consensus(&bytes, verifier);
    true
}

/// The microdescriptors that a peer gives of those that are wanted; nothing where none is, or it gives none.
fn wanted_of<V: Verifier, L: Link>(
    alloc: Global,
    mirror: &Mirror<V>,
    address: &[u8],
    link: &mut L,
) -> Given
    ensures within { IsWithin 6045696 result }
    ensures link { L.faults link.old ≤ L.faults link.new }
{
    let Ok(wanted) = mirror.wanted() else {
        return Given::Nothing;
    };
    if wanted.is_empty() {
        return Given::Nothing;
    }
    let Ok(path) = micros_path(alloc, &wanted) else {
        return Given::Nothing;
    };
    ask(alloc, link, address, &path, MICROS_LIMIT)
}

/// Asks a peer for the next microdescriptors that are wanted, and takes them; whether one was kept.
#[tactic(auto, using(crate::proofs::Comings::with_micros, crate::proofs::Batches::kept_lacks))]
fn fetch_batch<V: Verifier, L: Link>(
    alloc: Global,
    mirror: &mut Mirror<V>,
    address: &[u8],
    link: &mut L,
) -> bool
    ensures came { (before : Mirrored) → ComesOf (rules V.may_accept V.may_refuse) before mirror.old → ComesOf (rules V.may_accept V.may_refuse) before mirror.new }
    ensures fewer { result ≡ true → lacking_count mirror.new < lacking_count mirror.old }
    ensures link { L.faults link.old ≤ L.faults link.new }
{
    let Given::Document(body) = wanted_of(alloc, mirror, address, link) else {
        return false;
    };
    match mirror.take_micros(&body) {
        Ok(report) => report.kept > 0,
        Err(_) => false,
    }
}

/// Asks a peer for microdescriptors until none is wanted, it gives none that is kept, or what it gives is refused.
fn fetch_micros<V: Verifier, L: Link>(
    alloc: Global,
    mirror: &mut Mirror<V>,
    address: &[u8],
    link: &mut L,
)
    ensures came { (before : Mirrored) → ComesOf (rules V.may_accept V.may_refuse) before mirror.old → ComesOf (rules V.may_accept V.may_refuse) before mirror.new }
    ensures link { L.faults link.old ≤ L.faults link.new }
{
    'batches: while fetch_batch(alloc, mirror, address, link) {}
}

/// Asks a peer for certificates, the consensus and microdescriptors, and takes what it gives, until it does not answer.
fn ask_peer<C: Clock, V: Verifier, L: Link>(
    alloc: Global,
    mirror: &mut Mirror<V>,
    address: &[u8],
    clock: &mut C,
    verifier: &mut V,
    link: &mut L,
)
    ensures came { (before : Mirrored) → ComesOf (rules V.may_accept V.may_refuse) before mirror.old → ComesOf (rules V.may_accept V.may_refuse) before mirror.new }
    ensures clock { C.asks clock.old ≤ C.asks clock.new }
    ensures verifier { V.faults verifier.old ≤ V.faults verifier.new }
    ensures link { L.faults link.old ≤ L.faults link.new }
{
    if !fetch_certs(alloc, mirror, address, clock, verifier, link) {
        return;
    }
    if !fetch_consensus(alloc, mirror, address, verifier, link) {
        return;
    }
    fetch_micros(alloc, mirror, address, link);
}

/// Asks each peer in turn. One that does not answer is passed over.
pub(crate) fn ask_peers<C: Clock, V: Verifier, L: Link>(
    alloc: Global,
    mirror: &mut Mirror<V>,
    peers: &[Text],
    clock: &mut C,
    verifier: &mut V,
    link: &mut L,
)
    ensures came { (before : Mirrored) → ComesOf (rules V.may_accept V.may_refuse) before mirror.old → ComesOf (rules V.may_accept V.may_refuse) before mirror.new }
    ensures clock { C.asks clock.old ≤ C.asks clock.new }
    ensures verifier { V.faults verifier.old ≤ V.faults verifier.new }
    ensures link { L.faults link.old ≤ L.faults link.new }
{
    'peers: for peer in peers {
        ask_peer(alloc, mirror, peer.as_bytes(), clock, verifier, link);
    }
}
