// The event that advances a state.
ghost use Rattle.std.specs.Prelude.{◌≡◌};
ghost use Rattle.key_port.specs.Answers.{rules};
ghost use Rattle.serve_board.specs.Events.{AdvancesThere, moved_entry};

use crate::period::Period;
use dir_bytes::Memory;
use key_port::{Signer, Verifier};
use period_core::PeriodState;
use period_lock::Event;
use period_terms::Advance;
use std::alloc::Global;
use std::snapshot::Snapshot;

/// A state is advanced. What it signs and verifies with is lent.
#[derive(Drop)]
pub(crate) struct AdvancePeriodState<'a, 'b, N: Signer, V: Verifier> {
    pub(crate) alloc: Global,
    pub(crate) now: u64,
    pub(crate) signer: &'a mut N,
    pub(crate) verifier: &'b mut V,
}

impl<'a, 'b, N: Signer, V: Verifier> Event<Period<V>> for AdvancePeriodState<'a, 'b, N, V> {
    type Reply = (Result<Advance, Memory>, Snapshot<PeriodState<V>>);

    ghost answers = { λ before start story reply event.
        AdvancesThere N.may_give (rules V.may_accept V.may_refuse) N.faults V.faults before.now start story reply.0 reply.1.value
        before.signer.now event.signer.now before.verifier.now event.verifier.now
        × (event.signer.ghost_name ≡ before.signer.ghost_name) × (event.verifier.ghost_name ≡ before.verifier.ghost_name) };

    ghost entry_of = { λ before reply event. moved_entry before.now reply.0 reply.1.value };

    fn apply(
        &mut self,
        state: &mut Period<V>,
    ) -> (Result<Advance, Memory>, Snapshot<PeriodState<V>>) {
        let answer = state.period_state.advance(
            self.alloc,
            self.now,
            &mut *self.signer,
            &mut *self.verifier,
        );
        (answer, Snapshot::of(&state.period_state))
    }
}
