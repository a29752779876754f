//! An authority's period as a list of events: the answer to each, and the state after it.
#![tactic(auto)]

mod answers;
mod authority;
mod ending;
mod events;
mod signature;
mod state;
mod texts;
mod vote;

use anyhow::{Context, Result};
use ending::print_end;
use events::{answer_to, started};
use key_port::TestKeys;
use period_core::PeriodState;
use state::state_text;

fn main(rt: HostRuntime) -> Result<()> {
    let mut period_state = None;
    for line in rt.lines(rt.alloc()) {
        take(&rt, &mut period_state, line?.as_str())?;
    }
    Ok(())
}

// An authority begins, in place of any other.
fn begin(
    rt: &HostRuntime,
    period_state: &mut Option<PeriodState<TestKeys>>,
    line: &str,
) -> Result<()> {
    let begun = started(rt, line)?;
    let valid_after = begun.valid_after();
    *period_state = Some(begun);
    println!(rt; "{line} -> valid-after {valid_after}")?;
    Ok(())
}

// Something comes to an authority.
fn bring(rt: &HostRuntime, period_state: &mut PeriodState<TestKeys>, line: &str) -> Result<()> {
    let answer = answer_to(rt, period_state, line)?;
    let state = state_text(rt.alloc(), period_state)?;
    println!(rt; "{line} -> {answer}\nstate -> {state}")?;
    Ok(())
}

// Takes a line: an authority begins, or is told at its end, or something comes to it.
fn take(
    rt: &HostRuntime,
    period_state: &mut Option<PeriodState<TestKeys>>,
    line: &str,
) -> Result<()> {
    if line.starts_with("station ") {
        return begin(rt, period_state, line);
    }
    let period_state = period_state.as_mut().context("no station")?;
    if line == "end" {
        return print_end(rt, period_state);
    }
    bring(rt, period_state, line)
}
