// What comes of one request.
ghost use Rattle.std.specs.Prelude.{◌≡◌, ◌≤◌, ◌<◌, ◌^◌, IfOk, OnErr, length};
ghost use Rattle.key_port.specs.Answers.{rules};
ghost use Rattle.flag_rules.specs.Rules.{KeepsTo};
ghost use Rattle.serve_board.specs.{Boards.IsAt, Going.Goes};
ghost use Rattle.serve_answers.specs.{Finding.AddsNothing, Handling.{Does, Finds, IsCausedOutcome}};

use crate::descriptors::take_descriptor;
use crate::finding::find;
use crate::signatures::take_signatures;
use crate::votes::take_vote;
use bytes::Bytes;
use dir_bytes::{Clock, Memory};
use flag_rules::{Hook, RelayFacts, Rules, Ruling};
use http_words::{Asked, Outcome, Reply};
use key_port::Verifier;
use lone_vote::lone_vote;
use serve_board::{Board, Pass};
use std::alloc::Global;
use std::sync::Wait;

/// The document that is asked for by a path, or that there is none.
///
/// # Errors
/// `Memory` is want of memory.
fn find_document<R: Wait, V: Verifier>(
    rt: &R,
    alloc: Global,
    board: &Board<V>,
    pass: &mut Pass<V>,
    asked: Asked,
    path: &[u8],
) -> Result<Outcome, Memory>
    requires at { IsAt board.now pass.old }
    ensures finds { IfOk result (Finds (rules V.may_accept V.may_refuse) board.now pass.old pass.new asked path.now) }
    ensures err { OnErr result (AddsNothing pass.old pass.new) }
    ensures at { IsAt board.now pass.new }
    ensures goes { Goes pass.old pass.new }
{
    match find(rt, alloc, board, pass, asked, path)? {
        Some(text) => Ok(Outcome::Found(text)),
        None => Ok(Outcome::Replied(Reply::NotFound)),
    }
}

/// Does what a request asks for by a path, with a body.
///
/// # Errors
/// `Memory` is want of memory, and then nothing was added.
pub fn handle<R: Wait, W: Rules, F: Fn(RelayFacts) -> Ruling, C: Clock, V: Verifier>(
    rt: &R,
    alloc: Global,
    board: &Board<V>,
    hook: &Hook<W, F>,
    pass: &mut Pass<V>,
    clock: &mut C,
    verifier: &mut V,
    asked: Asked,
    path: &[u8],
    body: &Bytes,
) -> Result<Outcome, Memory>
    requires at { IsAt board.now pass.old }
    requires hook { KeepsTo W.allows F.pre F.post hook.now.rules hook.now.ask }
    requires short { length body.now < 2 ^ 61 }
    ensures does { IfOk result
        (Does (rules V.may_accept V.may_refuse) V.steps board.now pass.old pass.new
        (record {
          asks = C.asks clock.old;
          asks_then = C.asks clock.new;
          last = C.last clock.new;
          faults = V.faults verifier.old;
          faults_then = V.faults verifier.new;
        })
        verifier.old verifier.new (W.allows hook.now.rules) asked path.now body.now) }
    ensures err { OnErr result (AddsNothing pass.old pass.new) }
    ensures caused { IfOk result (IsCausedOutcome (V.faults verifier.old) (V.faults verifier.new)) }
    ensures at { IsAt board.now pass.new }
    ensures goes { Goes pass.old pass.new }
    ensures faults { V.faults verifier.old ≤ V.faults verifier.new }
    ensures asks { C.asks clock.old ≤ C.asks clock.new }
{
    match asked {
        Asked::PostVote => {
            let found = lone_vote(alloc, body)?;
            Ok(Outcome::Replied(take_vote(rt, board, pass, clock, verifier, found)))
        }
        Asked::PostDescriptor => Ok(Outcome::Replied(take_descriptor(
            rt, alloc, board, hook, pass, verifier, body,
        )?)),
        Asked::PostSignatures => Ok(Outcome::Replied(take_signatures(
            rt, alloc, board, pass, verifier, body,
        )?)),
        Asked::NotAllowed => Ok(Outcome::Replied(Reply::NotAllowed)),
        _ => find_document(rt, alloc, board, pass, asked, path),
    }
}
