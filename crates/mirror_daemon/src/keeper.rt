// What serves the connections of a mirror, and asks its peers while none comes.

use crate::round::ask_peers;
use dir_bytes::{Clock, Sink, Source, Text};
use dir_http::Link;
use gate_workers::Clerk;
use key_port::Verifier;
use mirror_core::Mirror;
use mirror_serve::mirror_connection;
use std::alloc::Global;

/// A mirror, the peers that it asks, and what it asks them with.
#[derive(Drop)]
pub(crate) struct Keeper<'a, 'b, 'c, 'd, C, V: Verifier, L> {
    pub(crate) alloc: Global,
    pub(crate) mirror: Mirror<V>,
    pub(crate) peers: &'a [Text],
    pub(crate) clock: &'b mut C,
    pub(crate) verifier: &'c mut V,
    pub(crate) link: &'d mut L,
}

impl<'a, 'b, 'c, 'd, C: Clock, V: Verifier, L: Link, I: Source, O: Sink> Clerk<I, O>
    for Keeper<'a, 'b, 'c, 'd, C, V, L> {
    ghost use Rattle.key_port.specs.Answers as keys;
    ghost use Rattle.mirror_daemon.specs.Keeping.{ComesOf};

    ghost may_work = { λ _. Unit {0} };

    ghost comes_to = { λ before now.
        ComesOf (keys.rules V.may_accept V.may_refuse) before.mirror now.mirror };

    fn serve(&mut self, input: &mut I, output: &mut O) {
        let _ = mirror_connection(self.alloc, &self.mirror, input, output);
    }

    fn rest(&mut self) {
        ask_peers(
            self.alloc,
            &mut self.mirror,
            self.peers,
            &mut *self.clock,
            &mut *self.verifier,
            &mut *self.link,
        );
    }
}
