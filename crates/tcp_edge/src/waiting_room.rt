// The connections that a gate has accepted and whose requests have not arrived yet, the oldest first.
use crate::waiting::{Visit, Waiting};
use std::alloc::Global;
use std::rt::Clock;

/// How many connections there may be. The oldest goes where one more comes.
const ROOM: usize = 256;

/// How many bytes all may hold together. Where they hold more, the oldest of those that hold much go.
const HELD: usize = 67108864;

/// The connections that wait.
#[derive(Drop)]
pub(crate) struct WaitingRoom {
    waiting: Vec<Waiting>,
    /// The first one that was not looked at in this round.
    place: usize,
    /// Whether something has come in this round.
    moved: bool,
}

impl WaitingRoom {
    /// A room in which nobody waits.
    pub(crate) fn new(alloc: Global) -> WaitingRoom {
        WaitingRoom {
            waiting: Vec::new(alloc),
            place: 0,
            moved: false,
        }
    }

    /// Takes a connection off its place.
    fn take(&mut self, place: usize) -> Option<Waiting> {
        if place < self.waiting.len() {
            return Some(self.waiting.remove(place));
        }
        None
    }

    /// Lets the oldest go.
    pub(crate) fn let_go(&mut self) {
        drop(self.take(0));
        self.place = self.place.saturating_sub(1);
    }

    /// Keeps a connection. Where there is no memory it is let go.
    pub(crate) fn admit(&mut self, waiting: Waiting) {
        if self.waiting.len() >= ROOM {
            self.let_go();
        }
        let _ = self.waiting.push(waiting);
    }

    /// Whether those that wait hold more than they may together.
    fn is_crowded(&self) -> bool {
        let mut held = 0usize;
        for waiting in &self.waiting {
            held = held.saturating_add(waiting.held());
        }
        held > HELD
    }

    /// The place of the oldest that holds much.
    fn oldest_large(&self) -> Option<usize> {
        let mut place = 0usize;
        for waiting in &self.waiting {
            if waiting.is_large() {
                return Some(place);
            }
            place = place.saturating_add(1);
        }
        None
    }

    /// Where those that wait hold more than they may together, lets the oldest of those that hold much go.
    fn thin_out(&mut self) {
        for _ in 0..ROOM {
            if !self.is_crowded() {
                break;
            }
            let Some(place) = self.oldest_large() else {
                break;
            };
            drop(self.take(place));
        }
    }

    /// Begins a round, and tells whether something came in the one before.
    pub(crate) fn begin_round(&mut self) -> bool {
        self.thin_out();
        let moved = self.moved;
        self.moved = false;
        self.place = 0;
        moved
    }

    /// The next connection of this round that is to be handed over, once what came of each was read.
    pub(crate) fn next_ready<R: Clock>(
        &mut self,
        runtime: &R,
        piece: &mut [u8],
    ) -> Option<Waiting> {
        for _ in self.place..self.waiting.len() {
            let Some(waiting) = self.waiting.get_mut(self.place) else {
                break;
            };
            match waiting.visit(runtime, piece) {
                Visit::Ready => return self.take(self.place),
                Visit::Broken => drop(self.take(self.place)),
                Visit::Came => {
                    self.moved = true;
                    self.place = self.place.saturating_add(1);
                }
                Visit::Waits => self.place = self.place.saturating_add(1),
            }
        }
        None
    }
}
