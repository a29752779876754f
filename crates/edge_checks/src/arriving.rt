// A source that gives one vote for each read, and a verifier whose calls it notes.
ghost use Rattle.std.specs.Prelude.{◌<◌, None, length, not};
ghost use Rattle.dir_bytes.specs.Streams.{CountsReads, GivesWithin, TakesFrom};
ghost use Rattle.key_port.specs.Answers.{AnswersBy, CountsAnswers};
ghost use Rattle.key_port.specs.TestScheme as scheme;

use crate::arriving_votes::{CONSENSUS, VOTES};
use compute_command::compute_from;
use count_terms::Newest;
use daemon_words::{Compute, Flavours};
use dir_bytes::{ReadAnswer, Source};
use dir_values::{Fingerprint, Roster};
use key_port::{KeyKind, TestKeys, Verifier, VerifyAnswer};
use std::alloc::Global;
use std::sync::atomic::{AtomicU64, Ordering};
use std::test::Fail;

/// 2026-01-01 00:00:00
const PERIOD: u64 = 1767225600;

/// The authorities of the votes.
const MEMBERS: [&[u8]; 3] = [
    b"2FD4E1C67A2D28FCED849EE1BB76E7391B93EB12",
    b"84983E441C3BD26EBAAE4AA1F95129E5E54670F1",
    b"86F7E437FAA5A7FCE15D1DDCB9EAEAEA377667B8",
];

/// The test scheme, whose calls are counted where others see them.
#[derive(Drop)]
struct CountingKeys<'a> {
    keys: TestKeys,
    calls: &'a AtomicU64,
}

impl<'a> Verifier for CountingKeys<'a> {
    ghost may_accept = { λ kind key message signature. scheme.is_test_signature kind key message signature };

    ghost may_refuse = { λ kind key message signature. not (scheme.is_test_signature kind key message signature) };

    ghost faults = { λ v. v.keys.faults };

    ghost steps = { λ before kind key message signature answer after. scheme.IsNextKeys before.keys after.keys answer };

    fn verify(
        &mut self,
        kind: KeyKind,
        key: &[u8],
        message: &[u8],
        signature: &[u8],
    ) -> VerifyAnswer {
        let _before = self.calls.fetch_add(1, Ordering::SeqCst);
        self.keys.verify(kind, key, message, signature)
    }
}

/// A source that gives the votes, one for each read, and notes at each read how many calls a verifier has had.
#[derive(Drop)]
struct NotingSource<'a> {
    reads: usize,
    notes: [u64; 4],
    calls: &'a AtomicU64,
}

impl<'a> Source for NotingSource<'a> {
    ghost left = { λ _. None };

    ghost faults = { λ _. 0 };

    fn read(&mut self, out: &mut [u8]) -> ReadAnswer
        requires { 0 < length out.old }
        ensures within { GivesWithin result (length out.new) }
        ensures bytes { TakesFrom None None result out.new }
        ensures cause { CountsReads 0 0 result }
    {
        let read = self.reads;
        if read < self.notes.len() {
            self.notes[read] = self.calls.load(Ordering::SeqCst);
            self.reads = read + 1;
        }
        if read >= VOTES.len() {
            return ReadAnswer::End;
        }
        let vote = VOTES[read];
        if vote.is_empty() || vote.len() > out.len() {
            return ReadAnswer::End;
        }
        out[..vote.len()].copy_from_slice(vote);
        ReadAnswer::Got(vote.len())
    }
}

/// What is computed: the ns flavour, for the period of the votes.
fn wanted(alloc: Global) -> Result<Compute, Fail> {
    let one = Fingerprint::read(MEMBERS[0])?;
    let two = Fingerprint::read(MEMBERS[1])?;
    let three = Fingerprint::read(MEMBERS[2])?;
    let roster = Roster::new(vec![in alloc; one, two, three]?)?;
    Ok(Compute {
        roster,
        valid_after: PERIOD,
        flavours: Flavours::Ns,
        newest: Newest::Method33,
    })
}

#[test]
fn each_vote_is_checked_before_the_source_is_asked_again(rt: HostRuntime) -> Result<(), Fail> {
    let alloc = rt.alloc();
    let calls = AtomicU64::new(0);
    let mut source = NotingSource {
        reads: 0,
        notes: [u64::MAX; 4],
        calls: &calls,
    };
    let mut verifier = CountingKeys {
        keys: TestKeys::new(Vec::new(alloc)),
        calls: &calls,
    };
    let wanted = wanted(alloc)?;
    let Ok(text) = compute_from(alloc, &wanted, &mut source, 100_000, &mut verifier) else {
        return Err("no consensus".into());
    };
    if text.as_slice() != CONSENSUS {
        return Err("another consensus".into());
    }
    if source.notes != [0, 3, 6, 9] {
        return Err("votes are checked at other reads".into());
    }
    Ok(())
}
