//! A mirror as a list of calls: the answer to each, and what is held.
#![tactic(auto)]

mod answers;
mod calls;
mod holding;
mod words;

use anyhow::{Context, Result};
use calls::answer_to;
use key_port::TestKeys;
use mirror_core::Mirror;
use words::roster_in;

// The mirror that the calls come to, and the roster of the next one.
#[derive(Drop)]
struct Play {
    roster: String,
    mirror: Option<Mirror<TestKeys>>,
}

fn main(rt: HostRuntime) -> Result<()> {
    let mut play = Play {
        roster: String::new(rt.alloc()),
        mirror: None,
    };
    for line in rt.lines(rt.alloc()) {
        take(&rt, &mut play, line?.as_str())?;
    }
    Ok(())
}

// A mirror begins, in place of any other.
fn begin(rt: &HostRuntime, play: &mut Play) -> Result<()> {
    let roster = roster_in(rt.alloc(), &play.roster)?;
    play.mirror = Some(Mirror::new(rt.alloc(), roster));
    println!(rt; "new")?;
    Ok(())
}

// The roster of the mirrors that begin from here on.
fn enroll(rt: &HostRuntime, play: &mut Play, members: &str) -> Result<()> {
    play.roster = String::from_str(rt.alloc(), members)?;
    println!(rt; "roster {members}")?;
    Ok(())
}

// A call comes to a mirror.
fn bring(rt: &HostRuntime, play: &mut Play, line: &str) -> Result<()> {
    let mirror = play.mirror.as_mut().context("no mirror")?;
    let answer = answer_to(rt, mirror, line)?;
    println!(rt; "{line} -> {answer}")?;
    Ok(())
}

// Takes a line: a roster, a mirror that begins, or a call.
fn take(rt: &HostRuntime, play: &mut Play, line: &str) -> Result<()> {
    if let Some(members) = line.strip_prefix("roster ") {
        return enroll(rt, play, members);
    }
    if line == "new" {
        return begin(rt, play);
    }
    bring(rt, play, line)
}
