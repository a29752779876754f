// One connection: its request is read, what it asks for is done, and the response is written.
ghost use Rattle.std.specs.Prelude.{◌≡◌, ◌≢◌, ◌≤◌};
ghost use Rattle.dir_bytes.specs.Causes.{Rose};
ghost use Rattle.key_port.specs.Answers.{rules};
ghost use Rattle.flag_rules.specs.Rules.{KeepsTo};
ghost use Rattle.serve_board.specs.{Boards.IsAt, Going.Goes};
ghost use Rattle.serve_answers.specs.{Handling.Does, Connections.Serves};

use crate::handling::handle;
use crate::incoming::{Incoming, read_incoming};
use crate::votes::take_vote;
use dir_bytes::{Clock, Sink, Source};
use flag_rules::{Hook, RelayFacts, Rules, Ruling};
use http_words::{ConnStatus, Outcome, reply_to, tell, tell_shortage};
use key_port::Verifier;
use serve_board::{Board, Pass};
use std::alloc::Global;
use std::sync::Wait;

/// Serves one connection: reads its request, does what it asks for, and writes the response.
pub fn serve_connection<
    H: Wait,
    W: Rules,
    F: Fn(RelayFacts) -> Ruling,
    S: Source,
    K: Sink,
    C: Clock,
    V: Verifier,
>(
    rt: &H,
    alloc: Global,
    board: &Board<V>,
    hook: &Hook<W, F>,
    pass: &mut Pass<V>,
    conn: &mut S,
    out: &mut K,
    clock: &mut C,
    verifier: &mut V,
) -> ConnStatus
    requires at { IsAt board.now pass.old }
    requires hook { KeepsTo W.allows F.pre F.post hook.now.rules hook.now.ask }
    ensures serves { Serves
        (Does (rules V.may_accept V.may_refuse) V.steps board.now pass.old pass.new
        (record {
          asks = C.asks clock.old;
          asks_then = C.asks clock.new;
          last = C.last clock.new;
          faults = V.faults verifier.old;
          faults_then = V.faults verifier.new;
        })
        verifier.old verifier.new (W.allows hook.now.rules))
        pass.old pass.new (S.left conn.old) (K.written out.old) (K.written out.new)
        (S.faults conn.old) (S.faults conn.new) (K.faults out.old) (K.faults out.new) result }
    ensures shortage { result ≢ ConnStatus.Answered 500 }
    ensures verifier { result ≡ ConnStatus.Answered 503 → Rose (V.faults verifier.old) (V.faults verifier.new) }
    ensures at { IsAt board.now pass.new }
    ensures goes { Goes pass.old pass.new }
    ensures faults { V.faults verifier.old ≤ V.faults verifier.new }
    ensures asks { C.asks clock.old ≤ C.asks clock.new }
    ensures source { S.faults conn.old ≤ S.faults conn.new }
    ensures sink { K.faults out.old ≤ K.faults out.new }
{
    match read_incoming(alloc, conn) {
        Incoming::Vote(found) => {
            let reply = take_vote(rt, board, pass, clock, verifier, found);
            tell(alloc, out, Outcome::Replied(reply))
        }
        Incoming::Request { asked, path, body } => {
            let path = path.as_bytes();
            match handle(
                rt, alloc, board, hook, pass, clock, verifier, asked, path, &body,
            ) {
                Ok(outcome) => tell(alloc, out, outcome),
                Err(_) => tell_shortage(alloc, out),
            }
        }
        Incoming::Unread(fault) => match reply_to(fault) {
            Some(reply) => tell(alloc, out, Outcome::Replied(reply)),
            None => ConnStatus::ReadFault,
        },
    }
}
