// A table of cases.
use crate::case::{Case, plain_case};
use crate::folder::take_folder;
use crate::input::take_input;
use crate::outside::take_outside;
use crate::runs::difference;
use crate::serving::take_serving;
use crate::wanted::take_wanted;
use anyhow::{Context, Result, bail};
use std::fs;
use std::sync::Wait;
use std::thread::Threads;

/// How many cases there were, and how many of them gave what they are to give.
#[derive(Drop)]
pub struct Tally {
    /// The cases that gave what they are to give.
    pub right: u64,
    /// All cases.
    pub all: u64,
}

/// Runs the cases of a table over a runtime with threads, and prints a line for each.
pub fn run_table<H: Threads + Wait + Sync>(
    rt: &HostRuntime,
    threads: &H,
    name: &str,
    tally: &mut Tally,
) -> Result<()> {
    let table = fs::read_to_string(rt, name).with_context(|| name)?;
    let mut case = plain_case(rt.alloc(), String::new(rt.alloc()))?;
    'lines: for line in table.lines() {
        if line.is_empty() || line.starts_with("#") {
            continue 'lines;
        }
        let (key, rest) = line.split_once(":").unwrap_or((line, ""));
        let rest = rest.strip_prefix(" ").unwrap_or(rest);
        if key == "case" || key == "folder" {
            finish(rt, threads, case, tally)?;
            case = plain_case(rt.alloc(), String::from_str(rt.alloc(), rest)?)?;
        }
        take(rt, &mut case, key, rest).with_context(|| line)?;
    }
    finish(rt, threads, case, tally)
}

// Takes a line of a table.
fn take(rt: &HostRuntime, case: &mut Case, key: &str, rest: &str) -> Result<()> {
    if case.name.is_empty() {
        bail!("no case");
    }
    if key == "case" {
        return Ok(());
    }
    if key == "folder" {
        return take_folder(rt, case, rest);
    }
    if take_input(rt, case, key, rest)?
        || take_wanted(rt, case, key, rest)?
        || take_outside(rt.alloc(), &mut case.outer, key, rest)?
        || take_serving(rt, case, key, rest)?
    {
        return Ok(());
    }
    bail!("no such line")
}

// Runs a case that has begun, and prints whether it gives what it is to.
fn finish<H: Threads + Wait + Sync>(
    rt: &HostRuntime,
    threads: &H,
    case: Case,
    tally: &mut Tally,
) -> Result<()> {
    if case.name.is_empty() {
        return Ok(());
    }
    tally.all = tally.all.saturating_add(1);
    let name = String::from_str(rt.alloc(), &case.name)?;
    let other = difference(threads, rt.alloc(), case)?;
    if other.is_empty() {
        tally.right = tally.right.saturating_add(1);
        println!(rt; "{name} ok")?;
    } else {
        println!(rt; "{name} differs: {other}")?;
    }
    Ok(())
}
