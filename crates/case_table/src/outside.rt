// The lines of a table that say how what stands outside a run behaves.
use crate::case::Outer;
use crate::texts::numbers_of;
use anyhow::{Context, Result};
use std::alloc::Global;

/// Takes a line that says how the source, a sink, the signer, the link or a worker behaves; whether it is one.
pub fn take_outside(alloc: Global, outer: &mut Outer, key: &str, rest: &str) -> Result<bool> {
    match key {
        "cuts" => outer.cuts = numbers_of(alloc, rest)?,
        "reads" => outer.reads = numbers_of(alloc, rest)?,
        "writes" => outer.writes = numbers_of(alloc, rest)?,
        "errors" => outer.errors = numbers_of(alloc, rest)?,
        "signs" => outer.signs = numbers_of(alloc, rest)?,
        "exchanges" => outer.exchanges = numbers_of(alloc, rest)?,
        "piece" => outer.piece = rest.parse::<u64>()?,
        "room" => outer.room = rest.parse::<usize>()?,
        "errors-room" => outer.errors_room = rest.parse::<usize>()?,
        _ => return take_worker(alloc, outer, key, rest),
    }
    Ok(true)
}

// Takes a line that says how the last worker's clock, verifier or gate behaves; whether it is one.
fn take_worker(alloc: Global, outer: &mut Outer, key: &str, rest: &str) -> Result<bool> {
    let worker = outer.workers.last_mut().context("no worker")?;
    match key {
        "clock" => worker.clock = numbers_of(alloc, rest)?,
        "verifies" => worker.verifies = numbers_of(alloc, rest)?,
        "gates" => worker.gates = numbers_of(alloc, rest)?,
        "idle" => worker.gives.push(None)?,
        _ => return Ok(false),
    }
    Ok(true)
}
