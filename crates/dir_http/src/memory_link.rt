// A link in memory, which tells what the peers send.
ghost use Rattle.std.specs.Prelude.{◌≡◌, ◌∷◌, ◌++◌, [], OnOk, Some};
ghost use Rattle.dir_http.specs.{Links.{GotWithin, TellsSent, CountsExchanges}, MemoryLinks.IsFreshLink};
ghost use Rattle.dir_http.specs.MemoryLinks.{NotesExchange, exchange_of, reply_of};

use crate::link::{Link, LinkAnswer};
use dir_bytes::{Memory, Text};
use std::alloc::Global;

/// What was asked of a link.
#[derive(Debug, Drop)]
pub struct Exchange {
    pub peer: Text,
    pub request: Text,
    pub limit: u64,
}

/// A link that sends its replies in order, and the last one again and again. The exchanges whose numbers, from 1, stand
/// in `failing` fail.
#[derive(Drop)]
pub struct MemoryLink {
    replies: Vec<Text>,
    failing: Vec<u64>,
    /// What was asked.
    pub asked: Vec<Exchange>,
    calls: u64,
    faults: u64,
}

impl MemoryLink {
    /// A link of which nothing was asked yet.
    pub fn new(alloc: Global, replies: Vec<Text>, failing: Vec<u64>) -> MemoryLink
        ensures { IsFreshLink replies.items failing.items result }
    {
        MemoryLink {
            replies,
            failing,
            asked: Vec::new(alloc),
            calls: 0,
            faults: 0,
        }
    }

    /// Keeps what is asked.
    fn note(&mut self, alloc: Global, peer: &[u8], request: &[u8], limit: u64) -> Result<(), Memory>
        ensures replies { self.new.replies ≡ self.old.replies }
        ensures failing { self.new.failing ≡ self.old.failing }
        ensures calls { self.new.calls ≡ self.old.calls }
        ensures faults { self.new.faults ≡ self.old.faults }
        ensures asked { OnOk result
            (self.new.asked.items ≡ self.old.asked.items ++ exchange_of peer.now request.now limit ∷ []) }
    {
        let peer = Text::copy_of(alloc, peer)?;
        let request = Text::copy_of(alloc, request)?;
        self.asked.push(Exchange {
            peer,
            request,
            limit,
        })?;
        Ok(())
    }

    /// What is sent in the call after so many.
    fn reply(&self, calls: u64) -> &[u8]
        ensures { result.now ≡ reply_of self.now.replies.items calls }
    {
        let last = (self.replies.len() as u64).saturating_sub(1);
        match self.replies.get(calls.min(last) as usize) {
            Some(reply) => reply.as_bytes(),
            None => b"",
        }
    }
}

impl Link for MemoryLink {
    ghost sends = { λ link peer request. Some (reply_of link.replies.items link.calls) };

    ghost faults = { λ link. link.faults };

    ghost steps = { λ before peer request limit answer after. NotesExchange before peer request limit answer after };

    fn exchange(&mut self, alloc: Global, peer: &[u8], request: &[u8], limit: u64) -> LinkAnswer {
        if self.note(alloc, peer, request, limit).is_err() {
            return LinkAnswer::Memory;
        }
        let before = self.calls;
        self.calls = self.calls.saturating_add(1);
        if self.failing.contains(&self.calls) {
            self.faults = self.faults.saturating_add(1);
            return LinkAnswer::Fault;
        }
        let reply = self.reply(before);
        if reply.len() as u64 > limit {
            return LinkAnswer::TooLong;
        }
        match Vec::from_slice(alloc, reply) {
            Ok(bytes) => LinkAnswer::Got(bytes),
            Err(_) => LinkAnswer::Memory,
        }
    }
}
