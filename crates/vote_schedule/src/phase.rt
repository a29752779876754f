// The moments of a period.
ghost use Rattle.std.specs.Prelude.{◌≡◌};
ghost use Rattle.vote_schedule.specs.Moments as moments;

use crate::config::Config;
use dir_bytes::LAST_MOMENT;

/// What a period's authorities do at a moment.
#[derive(Clone, Copy, Debug, PartialEq, Eq)]
pub enum Phase {
    /// Nothing yet.
    Waiting,
    /// They make votes and upload them.
    Voting,
    /// They fetch the votes that they lack.
    Fetching,
    /// They compute and sign.
    Signing,
    /// They fetch the signatures that they lack.
    FetchingSignatures,
    /// The consensus is valid.
    Past,
}

/// The moment at which votes are made for the consensus that is valid from a moment on.
pub fn voting_begins(config: &Config, valid_after: u64) -> u64
    ensures { result ≡ moments.voting_begins config.now valid_after }
{
    valid_after
        .saturating_sub(config.dist())
        .saturating_sub(config.vote())
}

/// From when on no vote is uploaded.
pub fn upload_cutoff(config: &Config, valid_after: u64) -> u64
    ensures { result ≡ moments.upload_cutoff config.now valid_after }
{
    valid_after
        .saturating_sub(config.dist())
        .saturating_sub(config.vote() / 2)
}

/// From when on no vote is taken.
pub fn freeze(config: &Config, valid_after: u64) -> u64
    ensures { result ≡ moments.freeze config.now valid_after }
{
    valid_after.saturating_sub(config.dist())
}

/// When the signatures that lack are asked for.
pub fn fetching_begins(config: &Config, valid_after: u64) -> u64
    ensures { result ≡ moments.fetching_begins config.now valid_after }
{
    valid_after.saturating_sub(config.dist() / 2)
}

/// The phase at a moment.
pub fn phase_at(config: &Config, valid_after: u64, now: u64) -> Phase
    ensures { result ≡ moments.phase_of config.now valid_after now }
{
    if valid_after <= now {
        Phase::Past
    } else if fetching_begins(config, valid_after) <= now {
        Phase::FetchingSignatures
    } else if freeze(config, valid_after) <= now {
        Phase::Signing
    } else if upload_cutoff(config, valid_after) <= now {
        Phase::Fetching
    } else if voting_begins(config, valid_after) <= now {
        Phase::Voting
    } else {
        Phase::Waiting
    }
}

/// The next moment from which a consensus is valid: the least multiple of the interval that is later than `after` and
/// whose votes can still be made. None exactly where what is valid from it on would pass the last moment of the calendar.
pub fn next_valid_after(config: &Config, after: u64, now: u64) -> Option<u64>
    ensures { moments.AnswersNext config.now after now result }
{
    if after > LAST_MOMENT || now > LAST_MOMENT {
        return None;
    }
    let interval = config.interval();
    let earliest = (after + 1).max(now + config.dist() + config.vote());
    let valid_after = (earliest + (interval - 1)) / interval * interval;
    if valid_after + 3 * interval > LAST_MOMENT {
        return None;
    }
    Some(valid_after)
}
