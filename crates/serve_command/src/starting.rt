// The authority as it starts.
ghost use Rattle.std.specs.Prelude.{◌≡◌, ◌≢◌, IfOk, None, Ok};
ghost use Rattle.period_terms.specs.{Histories.IsStart, Schedules.next_valid_after};
ghost use Rattle.vote_maker.specs.Made.{schedule_in};
ghost use Rattle.station_commands.specs.Order.{IsInOrder, roster_in};
ghost use Rattle.serve_command.specs.Starting.{IsStartOf};

use dir_bytes::Memory;
use dir_values::Roster;
use key_port::Verifier;
use period_core::{PeriodState, StartFault};
use station_commands::members_of;
use station_input::StationFacts;
use std::alloc::Global;
use vote_schedule::Config;

/// The roster of a station that is in order.
fn roster_of(alloc: Global, station: &StationFacts) -> Result<Roster, Memory>
    requires { IsInOrder station.now (schedule_in station.now) }
    ensures { IfOk result (λ roster. roster_in station.now ≡ Ok roster) }
{
    let members = members_of(alloc, station.authorities.as_slice())?;
    match Roster::new(members) {
        Ok(roster) => Ok(roster),
        Err(_) => unreachable!(),
    }
}

/// The authority of a station that is in order, as it starts at the moment `now`, where a period can still begin.
///
/// # Errors
/// `Memory` is want of memory.
pub(crate) fn start<V: Verifier>(
    alloc: Global,
    station: &StationFacts,
    schedule: Config,
    now: u64,
) -> Result<PeriodState<V>, Memory>
    requires order { IsInOrder station.now (schedule_in station.now) }
    requires schedule { schedule ≡ schedule_in station.now }
    requires period { next_valid_after (schedule_in station.now) 0 now ≢ None }
    ensures started { IfOk result (λ started. IsStartOf station.now now started) }
    ensures start { IfOk result (λ started. IsStart started) }
{
    let roster = roster_of(alloc, station)?;
    // Both tell what their types keep.
    let _ = roster.len();
    let _ = schedule.interval();
    match PeriodState::start(
        alloc,
        roster,
        station.identity,
        station.newest,
        schedule,
        now,
    ) {
        Ok(started) => Ok(started),
        Err(StartFault::Memory) => Err(Memory),
        Err(StartFault::OwnNotInRoster | StartFault::EndOfTime) => unreachable!(),
    }
}
