// The program of a mirror over what stands outside.
ghost use Rattle.std.specs.Prelude.{◌≡◌, Some};
ghost use Rattle.mirror_daemon.specs.{Lines.{Writes, line_of}, Words.mirror_words, Runs.{IsRun, IsUntouched}};
ghost use Rattle.mirror_daemon.specs.Runs.{LeavesAll};

use crate::keeping::keep_mirror;
use crate::outside::MirrorOutside;
use crate::status::{MirrorStatus, report};
use crate::words::{MirrorWords, mirror_words_of};
use dir_bytes::{Clock, Sink};
use dir_http::{Gate, Link, ListenAnswer};
use gate_workers::End;
use key_port::Verifier;
use mirror_core::Mirror;
use std::alloc::Global;
use std::sync::Wait;

/// Runs a mirror by its words, which come without the program's name: its gate listens, and its connections are served, one
/// after the other, until it is closed or fails. While none comes the peers are asked, in the order of the words, for
/// certificates, the microdesc consensus and the microdescriptors that it names and that are not held.
///
/// `BadWords` comes before the gate is asked, and so does `Memory`, which is want of memory for the words. Want of memory later
/// is told to the one whose request finds none, or passes over what a peer gave.
pub fn run_mirror<
    H: Wait,
    C: Clock + Drop,
    V: Verifier + Drop,
    G: Gate + Drop,
    L: Link + Drop,
    E: Sink + Drop,
>(
    rt: &H,
    alloc: Global,
    words: &[String],
    outside: &mut MirrorOutside<C, V, G, L, E>,
) -> MirrorStatus
    ensures run { IsRun G.faults G.closed (mirror_words words.now) outside.old.gate outside.new.gate
        (IsUntouched outside.old outside.new) result }
    ensures line { Writes (E.written outside.old.errors) (E.written outside.new.errors)
        (E.faults outside.old.errors) (E.faults outside.new.errors) (line_of result) }
{
    let status = run_words(rt, alloc, words, outside);
    let _ = report(&mut outside.errors, status);
    status
}

/// Runs a mirror by its words, and says nothing on the errors sink.
fn run_words<
    H: Wait,
    C: Clock + Drop,
    V: Verifier + Drop,
    G: Gate + Drop,
    L: Link + Drop,
    E: Sink + Drop,
>(
    rt: &H,
    alloc: Global,
    words: &[String],
    outside: &mut MirrorOutside<C, V, G, L, E>,
) -> MirrorStatus
    ensures run { IsRun G.faults G.closed (mirror_words words.now) outside.old.gate outside.new.gate
        (LeavesAll outside.old outside.new) result }
    ensures quiet { outside.new.errors ≡ outside.old.errors }
{
    match mirror_words_of(alloc, words) {
        Ok(Some(told)) => run_told(rt, alloc, told, outside),
        Ok(None) => MirrorStatus::BadWords,
        Err(_) => MirrorStatus::Memory,
    }
}

/// Runs a mirror with what its words tell.
fn run_told<
    H: Wait,
    C: Clock + Drop,
    V: Verifier + Drop,
    G: Gate + Drop,
    L: Link + Drop,
    E: Sink + Drop,
>(
    rt: &H,
    alloc: Global,
    told: MirrorWords,
    outside: &mut MirrorOutside<C, V, G, L, E>,
) -> MirrorStatus
    ensures run { IsRun G.faults G.closed (Some told) outside.old.gate outside.new.gate
        (LeavesAll outside.old outside.new) result }
    ensures quiet { outside.new.errors ≡ outside.old.errors }
{
    match outside.gate.listen(told.listen.as_bytes()) {
        ListenAnswer::Listening => {}
        ListenAnswer::Fault => return MirrorStatus::Gate,
    }
    let MirrorWords { roster, peers, .. } = told;
    let kept = keep_mirror(
        rt,
        alloc,
        Mirror::new(alloc, roster),
        peers.as_slice(),
        &mut outside.clock,
        &mut outside.verifier,
        &mut outside.gate,
        &mut outside.link,
    );
    match kept.end {
        End::Closed => MirrorStatus::Done,
        End::Fault => MirrorStatus::Gate,
        End::Working => unreachable!(),
    }
}
