// The three numbers of a schedule.
ghost use Rattle.std.specs.Prelude.{◌≡◌};
ghost use Rattle.vote_schedule.specs.Schedules.{schedule_of, IsSchedule};

use std::marker::Model;

/// Why three numbers are no schedule. Where there are several reasons, the first of these is told.
#[derive(Clone, Copy, Debug, PartialEq, Eq)]
pub enum ScheduleFault {
    /// The interval is 0, or does not divide a day.
    Interval,
    /// One of the delays is under 20 seconds.
    ShortDelay,
    /// The delays take half of the interval, or more.
    LongDelays,
    /// The interval is under 300 seconds.
    ShortLife,
}

/// A schedule (dir-spec, "Voting timeline"): seconds between two consensuses, for votes, and for signatures. Its type
/// keeps that it is one.
#[derive(Clone, Copy, Debug, PartialEq, Eq)]
pub struct Config {
    interval: u64,
    vote: u64,
    dist: u64,
}

impl Model for Config {
    ghost use Rattle.vote_schedule.specs.Schedules.{Schedule, IsSchedule};

    ghost Value = { Schedule };

    ghost view = { λ s. record { interval = s.interval; vote = s.vote; dist = s.dist } };

    ghost inverse = { λ s. record { interval = s.interval; vote = s.vote; dist = s.dist } };

    ghost invariant = { λ s. IsSchedule (record { interval = s.interval; vote = s.vote; dist = s.dist }) };
}

const DAY: u64 = 86_400;

impl Config {
    /// The schedule of these numbers of seconds: between two consensuses, for votes, and for signatures.
    ///
    /// # Errors
    /// The first reason why they are no schedule.
    pub fn new(interval: u64, vote: u64, dist: u64) -> Result<Config, ScheduleFault>
        ensures { result ≡ schedule_of interval vote dist }
    {
        if interval == 0 || DAY % interval != 0 {
            return Err(ScheduleFault::Interval);
        }
        if vote < 20 || dist < 20 {
            return Err(ScheduleFault::ShortDelay);
        }
        if vote >= interval || dist >= interval || 2 * (vote + dist) >= interval {
            return Err(ScheduleFault::LongDelays);
        }
        if interval < 300 {
            return Err(ScheduleFault::ShortLife);
        }
        Ok(Config {
            interval,
            vote,
            dist,
        })
    }

    /// Seconds between two consensuses.
    pub fn interval(&self) -> u64
        ensures value { result ≡ self.now.interval }
        ensures schedule { IsSchedule self.now }
    {
        self.interval
    }

    /// Seconds for votes.
    pub fn vote(&self) -> u64
        ensures value { result ≡ self.now.vote }
        ensures schedule { IsSchedule self.now }
    {
        self.vote
    }

    /// Seconds for signatures.
    pub fn dist(&self) -> u64
        ensures value { result ≡ self.now.dist }
        ensures schedule { IsSchedule self.now }
    {
        self.dist
    }
}
