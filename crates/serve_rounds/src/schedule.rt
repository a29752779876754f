// The schedule that a station is given.
ghost use Rattle.std.specs.Prelude.{◌≡◌, IfSome};
ghost use Rattle.vote_maker.specs.Made.{schedule_in};
ghost use Rattle.vote_schedule.specs.Schedules.{IsSchedule};

use station_input::StationFacts;
use vote_schedule::Config;

/// The schedule that a station is given, where its three numbers are one.
pub(crate) fn schedule_of(station: &StationFacts) -> Option<Config>
    ensures { IfSome result (λ schedule. (schedule ≡ schedule_in station.now) × IsSchedule (schedule_in station.now)) }
{
    match Config::new(station.interval, station.vote_seconds, station.dist_seconds) {
        Ok(schedule) => {
            let _interval = schedule.interval();
            Some(schedule)
        }
        Err(_) => None,
    }
}
