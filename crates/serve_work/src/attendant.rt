// What a worker does: it serves connections, and one of them does the duties of an authority while none comes.

use dir_bytes::{Clock, Sink, Source};
use dir_http::Link;
use flag_rules::{Hook, RelayFacts, Ruling};
use gate_workers::Clerk;
use key_port::{Signer, Verifier};
use serve_answers::serve_connection;
use serve_board::{Board, Pass};
use serve_rounds::{Round, Rulers, duties};
use station_input::StationFacts;
use std::alloc::Global;
use std::sync::Wait;

/// What the duties of an authority are done with.
#[derive(Drop)]
pub(crate) struct Keeper<'b, 'c, N, L> {
    pub(crate) round: Round,
    pub(crate) signer: &'b mut N,
    pub(crate) link: &'c mut L,
}

/// What a worker serves connections with: what its station is given, a pass of the board, a clock, a verifier; and what one of
/// them does the duties of an authority with.
#[derive(Drop)]
pub(crate) struct Attendant<'a, 'b, 'c, H, W, F, C, V: Verifier, N, L> {
    pub(crate) rt: &'a H,
    pub(crate) alloc: Global,
    pub(crate) board: &'a Board<V>,
    pub(crate) hook: &'a Hook<W, F>,
    pub(crate) station: &'a StationFacts,
    pub(crate) pass: Pass<V>,
    pub(crate) clock: C,
    pub(crate) verifier: V,
    pub(crate) keeper: Option<Keeper<'b, 'c, N, L>>,
}

impl<
    'a,
    'b,
    'c,
    H: Wait,
    W: Rulers,
    F: Fn(RelayFacts) -> Ruling,
    C: Clock,
    V: Verifier,
    N: Signer,
    L: Link,
    I: Source,
    O: Sink,
> Clerk<I, O> for Attendant<'a, 'b, 'c, H, W, F, C, V, N, L> {
    ghost use Rattle.key_port.specs.Answers as keys;
    ghost use Rattle.serve_work.specs.{Attendants.{ComesTo, MayAttend}, Workers.HasWorked};

    ghost may_work = { λ a.
        MayAttend W.allows F.pre F.post a.board.now a.pass a.hook.now.rules a.hook.now.ask };

    ghost comes_to = { λ before now.
        ComesTo V.faults (λ by. HasWorked (keys.rules V.may_accept V.may_refuse) N.may_give N.steps (W.allows by.rules)
        by.station C.last by.board)
        (record { board = before.board.now; rules = before.hook.now.rules; station = before.station.now }) before.pass
        before.verifier
        (record { board = now.board.now; rules = now.hook.now.rules; station = now.station.now }) now.pass
        now.verifier };

    fn serve(&mut self, input: &mut I, output: &mut O) {
        let _ = serve_connection(
            self.rt,
            self.alloc,
            self.board,
            self.hook,
            &mut self.pass,
            input,
            output,
            &mut self.clock,
            &mut self.verifier,
        );
    }

    fn rest(&mut self) {
        if let Some(keeper) = &mut self.keeper {
            let _ = duties(
                self.rt,
                self.alloc,
                self.board,
                self.station,
                self.hook,
                &mut self.pass,
                &mut keeper.round,
                &mut self.clock,
                &mut self.verifier,
                &mut *keeper.signer,
                &mut *keeper.link,
            );
        }
    }
}
