// Whether what a station is given is in order: its roster, its schedule, and its own authority among the others.
ghost use Rattle.std.specs.Prelude.{◌≡◌, IfOk};
ghost use Rattle.station_commands.specs.Order as order;

use crate::refusal::OrderWord;
use daemon_words::Stop;
use dir_bytes::Memory;
use dir_values::{Fingerprint, Roster};
use station_input::{Peer, StationFacts};
use std::alloc::Global;
use vote_schedule::Config;

/// The identities of the authorities of the network.
pub fn members_of(alloc: Global, authorities: &[Peer]) -> Result<Vec<Fingerprint>, Memory>
    ensures { IfOk result (λ members. members.items ≡ order.identities_of authorities.now) }
{
    let mut members = Vec::with_capacity(alloc, authorities.len())?;
    for authority in authorities {
        members.push(authority.identity)?;
    }
    Ok(members)
}

/// The schedule of a station whose own authority is one of its roster.
///
/// # Errors
/// `Refused` by the first that applies: `Roster` where the authorities are none, more than 32, or one stands twice; `Schedule`
/// where the three numbers are none; `Own` where the own authority is none of them. `Memory` is want of memory.
pub fn schedule_of(alloc: Global, station: &StationFacts) -> Result<Config, Stop<OrderWord>>
    ensures { order.GivesSchedule station.now result }
{
    let members = members_of(alloc, station.authorities.as_slice())?;
    let Ok(roster) = Roster::new(members) else {
        return Err(Stop::Refused(OrderWord::Roster));
    };
    let schedule = Config::new(station.interval, station.vote_seconds, station.dist_seconds);
    let Ok(schedule) = schedule else {
        return Err(Stop::Refused(OrderWord::Schedule));
    };
    if !roster.contains(&station.identity) {
        return Err(Stop::Refused(OrderWord::Own));
    }
    Ok(schedule)
}
