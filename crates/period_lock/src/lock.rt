// The lock.
ghost use Rattle.std.specs.Prelude.{◌≡◌, ◌<◌, ◌↔◌, [], length, IfOk, IfErr, IsErr};
ghost use Rattle.period_lock.specs.Turns.{Lock, AreDealt, AreOf, EndsIn, IsOf, OwnsItsPart, TakesTurn};

use crate::closing::finish;
use crate::opening::{deal, open};
use crate::pass::Pass;
use crate::rule::About;
use crate::steps::{TurnTable, count, give_back, take};
use crate::storied::{Event, Storied};
use std::alloc::{AllocError, Global};
use std::marker::{Brand, Model};
use std::snapshot::Snapshot;
use std::sync::Wait;

/// A value under a lock. Contracts see which lock it is.
#[derive(Drop)]
pub struct Shared<T: Storied> {
    table: TurnTable<T>,
    passes: u32,
}

impl<T: Storied> Model for Shared<T> {
    ghost Value = { Lock T.Start };

    ghost view = { λ s. record { table = s.table.shared.table_id; start = T.start_of s.table.shared.key.begun.value; passes = s.passes } };

    ghost invariant = { λ s. (s.table.shared.table_id.words ≡ 2) × (s.table.shared.table_id.slots ≡ 1) × (s.passes ≡ s.table.shared.key.passes) × (0 < s.passes) };
}

impl<T: Storied + Drop> Shared<T> {
    /// A lock round a value to which nothing was added, with its passes. As it stands it fails for want of memory, and the value is
    /// then dropped.
    pub fn new(
        alloc: Global,
        value: T,
        passes: u32,
    ) -> Result<(Shared<T>, Vec<Pass<T>>), AllocError>
        requires passes { 0 < passes }
        requires stands { T.stands value (T.start_of value) [] }
        ensures lock { IfOk result (λ r. (r.0.start ≡ T.start_of value) × (r.0.passes ≡ passes)) }
        ensures dealt { IfOk result (λ r. AreDealt r.0 passes r.1.items) }
        ensures of { IfOk result (λ r. AreOf r.0 r.1.items) }
    {
        let front = value.front();
        let about = About {
            begun: Snapshot::of(&value),
            passes,
        };
        let room = Vec::with_capacity(alloc, passes as usize)?;
        let (table, first) = open(alloc, value, front, &about)?;
        let dealt = deal(&table, first, front, passes, room);
        Ok((Shared { table, passes }, dealt))
    }
}

impl<T: Storied> Shared<T> {
    /// One turn: waits until it is free, and applies the event to the value.
    pub fn turn<R: Wait, E: Event<T>>(&self, rt: &R, pass: &mut Pass<T>, event: &mut E) -> E::Reply
        requires lock { IsOf self.now pass.old }
        ensures turn { TakesTurn (E.answers event.old) (E.entry_of event.old) self.now pass.old pass.new result event.new }
        ensures mine { OwnsItsPart pass.new }
    {
        let mut value = take(rt, &self.table, &mut pass.seat);
        let before = value.front();
        let asked = Snapshot::of(&*event);
        let reply = event.apply(&mut value);
        let after = value.front();
        count::<T, E, Brand>(
            &self.table,
            &mut pass.seat,
            after - before,
            &asked,
            &reply,
            event,
        );
        give_back(&self.table, &mut pass.seat, value);
        pass.front = after;
        reply
    }

    /// The value, where all passes have come back. It is refused exactly where one is missing, and hands everything back.
    pub fn close(self, passes: Vec<Pass<T>>) -> Result<T, (Shared<T>, Vec<Pass<T>>)>
        requires lock { AreOf self passes.items }
        ensures closed { IfOk result (λ value. EndsIn T.stands self passes.items value) }
        ensures missing { IsErr result ↔ (length passes.items < self.passes) }
        ensures back { IfErr result (λ r. (r.0 ≡ self) × (r.1.items ≡ passes.items)) }
    {
        if passes.len() < self.passes as usize {
            return Err((self, passes));
        }
        let Shared { table, passes: _ } = self;
        Ok(finish(table, passes))
    }
}
