// What comes to an authority.
use crate::answers::{advance_text, offer_text, sign_in_text};
use crate::authority::authority_of;
use crate::signature::signature_of;
use crate::texts::{number_after, word_after, words_of};
use crate::vote::{roster_of, vote_of};
use anyhow::{Result, bail};
use count_terms::Newest;
use dir_values::Roster;
use key_port::TestKeys;
use period_core::PeriodState;
use period_terms::Via;
use vote_schedule::Config;

// The roster of authorities whose numbers stand with commas between them.
fn roster_in(rt: &HostRuntime, numbers: &str) -> Result<Roster> {
    let mut members = Vec::new(rt.alloc());
    for number in numbers.split(",") {
        members.push(authority_of(rt, number)?.identity)?;
    }
    roster_of(members)
}

// The schedule of three numbers.
fn config_of(interval: u64, vote: u64, dist: u64) -> Result<Config> {
    match Config::new(interval, vote, dist) {
        Ok(config) => Ok(config),
        Err(_) => bail!("no schedule"),
    }
}

// The schedule that a line names.
fn config_in(words: &[&str]) -> Result<Config> {
    let [_, _, _, _, _, _, interval, vote, dist, ..] = words else {
        bail!("no schedule");
    };
    config_of(
        interval.parse::<u64>()?,
        vote.parse::<u64>()?,
        dist.parse::<u64>()?,
    )
}

/// The state that a line begins.
pub fn started(rt: &HostRuntime, line: &str) -> Result<PeriodState<TestKeys>> {
    let words = words_of(rt.alloc(), line)?;
    let words = words.as_slice();
    let roster = roster_in(rt, word_after(words, "roster")?)?;
    let own = authority_of(rt, word_after(words, "own")?)?.identity;
    let config = config_in(words)?;
    let now = number_after(words, "now")?;
    match PeriodState::start(rt.alloc(), roster, own, Newest::Method33, config, now) {
        Ok(state) => Ok(state),
        Err(_) => bail!("no start"),
    }
}

// How a vote comes.
fn via_of(word: &str) -> Result<Via> {
    match word {
        "Upload" => Ok(Via::Upload),
        "Fetched" => Ok(Via::Fetched),
        "Own" => Ok(Via::Own),
        _ => bail!("no such way"),
    }
}

// A vote is offered.
fn offer(rt: &HostRuntime, state: &mut PeriodState<TestKeys>, words: &[&str]) -> Result<String> {
    let authority = authority_of(rt, word_after(words, "offer")?)?;
    let published = number_after(words, "published")?;
    let period = number_after(words, "period")?;
    let via = via_of(word_after(words, "via")?)?;
    let now = number_after(words, "now")?;
    let vote = vote_of(rt.alloc(), &authority, published, period)?;
    let answer = state.offer(vote, via, now);
    Ok(offer_text(rt.alloc(), answer)?)
}

// A signer of the test scheme. Its first call may fail.
fn signer_of(rt: &HostRuntime, fails: bool) -> Result<TestKeys> {
    let mut failing = Vec::new(rt.alloc());
    if fails {
        failing.push(1)?;
    }
    Ok(TestKeys::new(failing))
}

// The clock is at a moment.
fn advance(rt: &HostRuntime, state: &mut PeriodState<TestKeys>, words: &[&str]) -> Result<String> {
    let mut signer = signer_of(rt, words.contains(&"signer-fails"))?;
    let mut verifier = TestKeys::new(Vec::new(rt.alloc()));
    let now = number_after(words, "now")?;
    match state.advance(rt.alloc(), now, &mut signer, &mut verifier) {
        Ok(answer) => Ok(advance_text(rt.alloc(), &answer)?),
        Err(_) => bail!("no memory"),
    }
}

// A signature is offered.
fn sign_in(rt: &HostRuntime, state: &mut PeriodState<TestKeys>, words: &[&str]) -> Result<String> {
    let [_, number, flavour, over, ..] = words else {
        bail!("no signature");
    };
    let authority = authority_of(rt, number)?;
    let period = number_after(words, "period")?;
    let signature = signature_of(rt.alloc(), state, &authority, flavour, over, period)?;
    let answer = state.sign_in(signature);
    Ok(sign_in_text(rt.alloc(), &answer)?)
}

/// What a line brings to a state, and the answer.
pub fn answer_to(
    rt: &HostRuntime,
    state: &mut PeriodState<TestKeys>,
    line: &str,
) -> Result<String> {
    let words = words_of(rt.alloc(), line)?;
    let words = words.as_slice();
    match words.first() {
        Some(&"offer") => offer(rt, state, words),
        Some(&"advance") => advance(rt, state, words),
        Some(&"sign-in") => sign_in(rt, state, words),
        _ => bail!("no such event"),
    }
}
