// The lines of a table that say what a run is to give.
use crate::case::Case;
use crate::input::{front_of, with_first};
use crate::texts::text_of;
use anyhow::{Context, Result};
use std::alloc::Global;
use std::fs;
use std::str::from_utf8;

/// Takes a line that says what is to be written or which status is to come; whether it is one.
pub fn take_wanted(rt: &HostRuntime, case: &mut Case, key: &str, rest: &str) -> Result<bool> {
    let alloc = rt.alloc();
    match key {
        "stdout" => case.text.append(&mut text_of(alloc, rest)?.into_bytes())?,
        "stdout-file" => case.text.append(&mut fs::read(rt, rest)?)?,
        "stdout-input" => case.text.extend_from_slice(&case.input)?,
        "stdout-front" => case.text = front_of(alloc, &case.text, rest.parse::<usize>()?)?,
        "stderr" => case.line = text_of(alloc, rest)?.into_bytes(),
        "place" => take_place(alloc, case, &text_of(alloc, rest)?)?,
        "status" => case.status = rest.parse::<u64>()?,
        "asked" => case.asked.append(&mut text_of(alloc, rest)?.into_bytes())?,
        "asked-file" => case.asked.append(&mut fs::read(rt, rest)?)?,
        "behind" => case.marks.push(text_of(alloc, rest)?)?,
        _ => return Ok(false),
    }
    Ok(true)
}

// Puts the place where a piece of the input begins into the line that is to be written, for `@`.
fn take_place(alloc: Global, case: &mut Case, piece: &str) -> Result<()> {
    let input = from_utf8(&case.input)?;
    let (before, _) = input.split_once(piece).context("no such place")?;
    let place = format!(in alloc; "{}", before.len())?;
    case.line = with_first(alloc, &case.line, "@", &place)?;
    Ok(())
}
