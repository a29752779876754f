// The command that makes a vote.
ghost use Rattle.std.specs.Prelude.{◌≡◌, ◌≤◌, ◌<◌, ◌^◌, Err, IfErr, length};
ghost use Rattle.dir_bytes.specs.Causes.{Counts, Rose};
ghost use Rattle.key_port.specs.Answers.{rules};
ghost use Rattle.daemon_words.specs.Stops.{Answered};
ghost use Rattle.vote_schedule.specs.{Moments.AnswersNext, Schedules.IsSchedule};
ghost use Rattle.station_commands.specs.Voting as voting;

use crate::descriptors::pool_of;
use crate::order::schedule_of;
use crate::refusal::{MakeVoteRefusal, StationRefusal};
use crate::told::{of_fault, of_order, of_pool, station_stop};
use crate::voting::vote_of;
use bytes::Bytes;
use count_terms::Newest;
use daemon_words::Stop;
use dir_bytes::Clock;
use frame_terms::{FrameFault, ReadRefusal};
use key_port::{Signer, Verifier};
use station_input::{StationFacts, read_station};
use std::alloc::Global;
use vote_schedule::{Config, next_valid_after};

/// What a station that knows this newest method is given, and the place behind it, where its descriptors begin.
///
/// # Errors
/// `Refused` is its first fault. `Memory` is want of memory.
pub fn station_of(
    alloc: Global,
    newest: Newest,
    bytes: &Bytes,
) -> Result<(StationFacts, usize), Stop<FrameFault>>
    requires { length bytes.now < 2 ^ 61 }
    ensures { voting.GivesStation newest bytes.now result }
{
    match read_station(alloc, newest, bytes) {
        Ok(read) => Ok(read),
        Err(ReadRefusal::Memory) => Err(Stop::Memory),
        Err(ReadRefusal::Frame(fault)) => Err(Stop::Refused(fault)),
    }
}

/// When the next consensus of a schedule becomes valid, of which a vote can still be made at the moment `now`; none where
/// there is none any more.
pub fn period_of(schedule: &Config, now: u64) -> Option<u64>
    ensures next { AnswersNext schedule.now 0 now result }
    ensures schedule { IsSchedule schedule.now }
{
    let _interval = schedule.interval();
    next_valid_after(schedule, 0, now)
}

/// The signed vote of a station that is given this, of the descriptors that stand in the input from a place on, for the next
/// period of its schedule at the moment `now`.
///
/// # Errors
/// Those of `make_vote`, but for the fault of what the station is given.
pub fn vote_from<V: Verifier, N: Signer>(
    alloc: Global,
    bytes: &Bytes,
    station: &StationFacts,
    used: usize,
    now: u64,
    verifier: &mut V,
    signer: &mut N,
) -> Result<Vec<u8>, Stop<MakeVoteRefusal>>
    requires short { length bytes.now < 2 ^ 61 }
    requires within { used ≤ length bytes.now }
    ensures answer { Answered (λ answer. voting.VoteAnswers (rules V.may_accept V.may_refuse) N.may_give N.steps now station.now used bytes.now answer signer.old signer.new) result }
    ensures verifier_fault { result ≡ Err (Stop.Refused MakeVoteRefusal.Verifier) → Rose (V.faults verifier.old) (V.faults verifier.new) }
    ensures verifier_told { V.faults verifier.old < V.faults verifier.new → result ≡ Err (Stop.Refused MakeVoteRefusal.Verifier) }
    ensures signer_fault { result ≡ Err (Stop.Refused MakeVoteRefusal.Signer) → Rose (N.faults signer.old) (N.faults signer.new) }
    ensures signer_told { N.faults signer.old < N.faults signer.new → result ≡ Err (Stop.Refused MakeVoteRefusal.Signer) }
    ensures unasked { IfErr result (λ why. voting.IsOfStation why → verifier.new ≡ verifier.old) }
    ensures unsigned { IfErr result (λ why. voting.IsBeforeSigner why → signer.new ≡ signer.old) }
{
    let schedule = match schedule_of(alloc, station) {
        Ok(schedule) => schedule,
        Err(why) => return Err(of_order(why)),
    };
    let pool = match pool_of(alloc, station.newest, bytes, used, verifier) {
        Ok(pool) => pool,
        Err(why) => return Err(of_pool(why)),
    };
    let Some(valid_after) = period_of(&schedule, now) else {
        return Err(station_stop(StationRefusal::EndOfTime));
    };
    vote_of(alloc, station, &pool, valid_after, now, verifier, signer)
}

/// The signed vote of the station that the input begins with and that knows this newest method, of the descriptors that follow, for
/// the next period of its schedule at the moment that the clock gives.
///
/// # Errors
/// `Refused` by the first that applies: the fault of what the station is given; its roster, its schedule, its own authority;
/// the first fault of a descriptor, or the first that does not hold, in their order; a full pool; no period any more; the own
/// certificate; the signer; a vote that is too long. `Verifier` stands where the descriptor or the certificate stands of which
/// it was asked. `Memory` is want of memory.
pub fn make_vote<C: Clock, V: Verifier, N: Signer>(
    alloc: Global,
    newest: Newest,
    bytes: &Bytes,
    clock: &mut C,
    verifier: &mut V,
    signer: &mut N,
) -> Result<Vec<u8>, Stop<MakeVoteRefusal>>
    requires { length bytes.now < 2 ^ 61 }
    ensures answer { Answered (λ answer. voting.MakeVoteAnswers (rules V.may_accept V.may_refuse) N.may_give N.steps newest (C.last clock.new) bytes.now answer signer.old signer.new) result }
    ensures clock { Counts (C.asks clock.old) (C.asks clock.new) }
    ensures verifier_fault { result ≡ Err (Stop.Refused MakeVoteRefusal.Verifier) → Rose (V.faults verifier.old) (V.faults verifier.new) }
    ensures verifier_told { V.faults verifier.old < V.faults verifier.new → result ≡ Err (Stop.Refused MakeVoteRefusal.Verifier) }
    ensures signer_fault { result ≡ Err (Stop.Refused MakeVoteRefusal.Signer) → Rose (N.faults signer.old) (N.faults signer.new) }
    ensures signer_told { N.faults signer.old < N.faults signer.new → result ≡ Err (Stop.Refused MakeVoteRefusal.Signer) }
    ensures unasked { IfErr result (λ why. voting.IsOfStation why → verifier.new ≡ verifier.old) }
    ensures unsigned { IfErr result (λ why. voting.IsBeforeSigner why → signer.new ≡ signer.old) }
{
    let now = clock.now();
    let (station, used) = match station_of(alloc, newest, bytes) {
        Ok((station, used)) => (station, used),
        Err(why) => return Err(of_fault(why)),
    };
    vote_from(alloc, bytes, &station, used, now, verifier, signer)
}
