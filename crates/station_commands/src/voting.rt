// Making the vote under the rules of the station's operator.
ghost use Rattle.std.specs.Prelude.{◌≡◌, ◌≤◌, ◌<◌, Err};
ghost use Rattle.dir_bytes.specs.Causes.{Rose, last_moment};
ghost use Rattle.key_port.specs.Answers.{rules};
ghost use Rattle.flag_rules.specs.Rules.{ruling_for};
ghost use Rattle.vote_maker.specs.Made.{basis, schedule_in};
ghost use Rattle.vote_schedule.specs.{Moments.valid_until, Schedules.IsSchedule};
ghost use Rattle.station_commands.specs.Voting.{GivesVote};

use crate::refusal::MakeVoteRefusal;
use crate::told::make_refused;
use daemon_words::Stop;
use flag_rules::{Hook, OperatorList, RelayFacts, Ruling};
use key_port::{Signer, Verifier};
use station_input::StationFacts;
use std::alloc::Global;
use vote_maker::make;
use vote_pool::Pool;

/// The signed text of the vote that a station makes at the moment `now` of the descriptors in its pool, for the period that
/// begins at `valid_after`, under the rules of its operator.
///
/// # Errors
/// Those of `vote_maker::make`, as the command tells them.
pub fn vote_of<V: Verifier, N: Signer>(
    alloc: Global,
    station: &StationFacts,
    pool: &Pool<V>,
    valid_after: u64,
    now: u64,
    verifier: &mut V,
    signer: &mut N,
) -> Result<Vec<u8>, Stop<MakeVoteRefusal>>
    requires schedule { IsSchedule (schedule_in station.now) }
    requires moments { valid_until (schedule_in station.now) valid_after ≤ last_moment }
    ensures gives { GivesVote (rules V.may_accept V.may_refuse) N.may_give N.steps (basis station.now pool.now.descriptors valid_after now) result signer.old signer.new }
    ensures verifier_fault { result ≡ Err (Stop.Refused MakeVoteRefusal.Verifier) → Rose (V.faults verifier.old) (V.faults verifier.new) }
    ensures verifier_told { V.faults verifier.old < V.faults verifier.new → result ≡ Err (Stop.Refused MakeVoteRefusal.Verifier) }
    ensures verifier_faults { V.faults verifier.old ≤ V.faults verifier.new }
    ensures signer_fault { result ≡ Err (Stop.Refused MakeVoteRefusal.Signer) → Rose (N.faults signer.old) (N.faults signer.new) }
    ensures signer_told { N.faults signer.old < N.faults signer.new → result ≡ Err (Stop.Refused MakeVoteRefusal.Signer) }
{
    let list = OperatorList::new(station.rules.as_slice().to_vec(alloc)?)?;
    let by_list = |facts: RelayFacts| -> Ruling
        ensures { result ≡ ruling_for list facts.identity }
    { list.ruling(&facts) };
    let hook = Hook::new(&list, by_list);
    match make(
        alloc,
        station,
        pool,
        &hook,
        valid_after,
        now,
        verifier,
        signer,
    ) {
        Ok(text) => Ok(text),
        Err(refusal) => Err(make_refused(refusal)),
    }
}
