// A descriptor that is uploaded.
ghost use Rattle.std.specs.Prelude.{◌≡◌, ◌≤◌, ◌<◌, ◌^◌, MatchResult, length};
ghost use Rattle.key_port.specs.Answers.{rules};
ghost use Rattle.flag_rules.specs.Rules.{KeepsTo};
ghost use Rattle.serve_board.specs.Boards.{IsAt};
ghost use Rattle.serve_answers.specs.Answers.{TakesDescriptor, TakesRuled};

use crate::bodies::descriptor_of;
use crate::known::known_of;
use crate::words::{reply_to_descriptor, reply_to_keep};
use bytes::Bytes;
use descriptor_doc::check;
use dir_bytes::Memory;
use flag_rules::{Hook, RelayFacts, Rules, Ruling};
use http_words::{Reply, Word};
use key_port::Verifier;
use serve_board::{Board, Pass};
use std::alloc::Global;
use std::sync::Wait;
use vote_pool::{PoolEntry, prepare};

/// Keeps a descriptor that holds, unless the rules leave its relay out.
fn keep_ruled<R: Wait, W: Rules, F: Fn(RelayFacts) -> Ruling, V: Verifier>(
    rt: &R,
    board: &Board<V>,
    hook: &Hook<W, F>,
    pass: &mut Pass<V>,
    entry: PoolEntry<V>,
) -> Reply
    requires at { IsAt board.now pass.old }
    requires hook { KeepsTo W.allows F.pre F.post hook.now.rules hook.now.ask }
    ensures ruled { TakesRuled (rules V.may_accept V.may_refuse) board.now pass.old pass.new
        (W.allows hook.now.rules) entry result }
    ensures at { IsAt board.now pass.new }
{
    match hook.rule(&known_of(&entry)) {
        Ruling::Reject => Reply::Refused(Word::Rejected),
        _ => reply_to_keep(&board.keep(rt, pass, entry)),
    }
}

/// Takes a descriptor that is uploaded: one that holds is kept, or not, unless the rules leave its relay out.
///
/// # Errors
/// `Memory` is want of memory, and then no event was made.
pub fn take_descriptor<R: Wait, W: Rules, F: Fn(RelayFacts) -> Ruling, V: Verifier>(
    rt: &R,
    alloc: Global,
    board: &Board<V>,
    hook: &Hook<W, F>,
    pass: &mut Pass<V>,
    verifier: &mut V,
    body: &Bytes,
) -> Result<Reply, Memory>
    requires at { IsAt board.now pass.old }
    requires hook { KeepsTo W.allows F.pre F.post hook.now.rules hook.now.ask }
    requires short { length body.now < 2 ^ 61 }
    ensures takes { MatchResult result
        (TakesDescriptor (rules V.may_accept V.may_refuse) board.now pass.old pass.new
        (V.faults verifier.old) (V.faults verifier.new) (W.allows hook.now.rules) body.now)
        (λ _. pass.new ≡ pass.old) }
    ensures at { IsAt board.now pass.new }
    ensures faults { V.faults verifier.old ≤ V.faults verifier.new }
{
    let Some(descriptor) = descriptor_of(alloc, board.newest(), body)? else {
        return Ok(Reply::Refused(Word::Document));
    };
    match check(descriptor, verifier) {
        Ok(checked) => {
            let entry = prepare(alloc, checked)?;
            Ok(keep_ruled(rt, board, hook, pass, entry))
        }
        Err(refusal) => Ok(reply_to_descriptor(&refusal)),
    }
}
