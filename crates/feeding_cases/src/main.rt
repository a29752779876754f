//! Documents read whole and in pieces: the same items, and the same first fault.
#![tactic(auto)]

mod reading;
mod texts;

use anyhow::{Context, Result, bail};
use reading::{Reading, in_pieces, whole};
use std::fs;
use texts::fault_text;

/// The bytes that a document of a case may have.
const MAX_DOCUMENT: u64 = 16_777_216;

fn main(rt: HostRuntime) -> Result<()> {
    let list = fs::read_to_string(&rt, "list")?;
    for line in list.lines() {
        let (name, limit) = line.split_once(" ").context("no limit")?;
        let limit = limit.parse::<u64>().context("a limit")?;
        show(&rt, name, limit).with_context(|| name)?;
    }
    Ok(())
}

// Reads a document in each way, and prints what it holds.
fn show(rt: &HostRuntime, name: &str, limit: u64) -> Result<()> {
    let alloc = rt.alloc();
    let path = format!(in alloc; "texts/{name}")?;
    let bytes = fs::read(rt, &path)?;
    if limit > MAX_DOCUMENT || bytes.len() as u64 > MAX_DOCUMENT {
        bail!("too long");
    }
    let all = whole(alloc, &bytes, limit)?;
    let single = in_pieces(alloc, &bytes, limit, 1)?;
    let seven = in_pieces(alloc, &bytes, limit, 7)?;
    let large = in_pieces(alloc, &bytes, limit, 65_536)?;
    if !(are_same(&single, &all) && are_same(&seven, &all) && are_same(&large, &all)) {
        println!(rt; "{name}: differs")?;
        return Ok(());
    }
    if single.early != seven.early || single.early != large.early {
        println!(rt; "{name}: known at another time")?;
        return Ok(());
    }
    let Reading { items, early, .. } = single;
    let fault = fault_text(alloc, all.fault)?;
    println!(rt; "{name}: {items} items, {early} before the end, {fault}")?;
    Ok(())
}

// Whether two readings gave the same items and the same fault.
fn are_same(one: &Reading, other: &Reading) -> bool {
    one.items == other.items && one.text == other.text && one.fault == other.fault
}
