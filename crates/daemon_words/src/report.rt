// The options of a report.
ghost use Rattle.std.specs.Prelude.{◌≡◌, IfOk};
ghost use Rattle.clap.specs.Words.{found_of, rows_of};
ghost use Rattle.daemon_words.specs.Reports as words;

use crate::values::{read_moment, read_roster, value_of};
use clap::ArgMatches;
use dir_bytes::Memory;
use dir_values::Roster;
use std::alloc::Global;

/// What is reported of.
#[derive(Debug, Drop)]
pub struct Report {
    /// The authorities of the network.
    pub roster: Roster,
    /// When their consensus becomes valid, in seconds since 1970-01-01 00:00:00 UTC.
    pub valid_after: u64,
}

/// The report that stands among the values.
pub fn report_in(alloc: Global, values: &ArgMatches<'_>) -> Result<Option<Report>, Memory>
    ensures { IfOk result (λ report. report ≡ words.report_in (rows_of (found_of values.now))) }
{
    let (Some(authorities), Some(valid_after)) = (
        value_of(values, "authorities"),
        value_of(values, "valid-after"),
    ) else {
        return Ok(None);
    };
    report_of(alloc, authorities.as_bytes(), valid_after.as_bytes())
}

/// The report that the texts of two options tell.
fn report_of(
    alloc: Global,
    authorities: &[u8],
    valid_after: &[u8],
) -> Result<Option<Report>, Memory>
    ensures { IfOk result (λ report. report ≡ words.report_of authorities.now valid_after.now) }
{
    let (Some(roster), Some(valid_after)) = (
        read_roster(alloc, authorities)?,
        read_moment(valid_after),
    ) else {
        return Ok(None);
    };
    Ok(Some(Report {
        roster,
        valid_after,
    }))
}
