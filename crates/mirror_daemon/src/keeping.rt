// A mirror that serves by a gate until that is closed or fails.
ghost use Rattle.std.specs.Prelude.{◌≡◌, ◌≤◌};
ghost use Rattle.gate_workers.specs.Workers.{Ends};
ghost use Rattle.key_port.specs.Answers.{rules};
ghost use Rattle.mirror_daemon.specs.Keeping.{ComesOf};

use crate::keeper::Keeper;
use dir_bytes::{Clock, Text};
use dir_http::{Gate, Link};
use gate_workers::{End, serve_gate};
use key_port::Verifier;
use mirror_core::Mirror;
use std::alloc::Global;
use std::sync::Wait;

/// What a mirror holds once its gate gives no more, and why that is.
#[derive(Drop)]
pub struct Kept<V: Verifier> {
    /// The mirror.
    pub mirror: Mirror<V>,
    /// Whether its gate was closed, or failed.
    pub end: End,
}

/// Serves the connections of a gate that listens, one after the other, by what a mirror holds. While none comes the peers are
/// asked, each in turn, and what they give is taken; so what the mirror holds came of a list of its calls.
#[tactic(auto, using(crate::proofs::Comings::comes_itself))]
pub fn keep_mirror<H: Wait, C: Clock, V: Verifier, G: Gate, L: Link>(
    rt: &H,
    alloc: Global,
    mirror: Mirror<V>,
    peers: &[Text],
    clock: &mut C,
    verifier: &mut V,
    gate: &mut G,
    link: &mut L,
) -> Kept<V>
    ensures came { ComesOf (rules V.may_accept V.may_refuse) mirror result.mirror }
    ensures end { Ends (G.faults gate.old) (G.faults gate.new) (G.closed gate.new) result.end }
    ensures faults { G.faults gate.old ≤ G.faults gate.new }
{
    let mut keeper = Keeper {
        alloc,
        mirror,
        peers,
        clock,
        verifier,
        link,
    };
    let end = serve_gate(rt, gate, &mut keeper);
    Kept {
        mirror: keeper.mirror,
        end,
    }
}
