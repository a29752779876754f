// Schedules, and why numbers are none.
use std::test::Fail;
use vote_schedule::{Config, ScheduleFault};

// Seconds between two consensuses, for votes and for signatures, and why they are no schedule.
const SCHEDULES: [(u64, u64, u64, Option<ScheduleFault>); 5] = [
    (3600, 300, 300, None),
    (7000, 300, 300, Some(ScheduleFault::Interval)),
    (3600, 19, 300, Some(ScheduleFault::ShortDelay)),
    (1200, 300, 300, Some(ScheduleFault::LongDelays)),
    (240, 20, 20, Some(ScheduleFault::ShortLife)),
];

#[test]
fn three_numbers_are_a_schedule_or_have_their_first_fault() -> Result<(), Fail> {
    let mut row = 0u32;
    for (interval, vote, dist, fault) in SCHEDULES {
        row = row.wrapping_add(1);
        if Config::new(interval, vote, dist).err() != fault {
            return Err(Fail::new(row));
        }
    }
    Ok(())
}
