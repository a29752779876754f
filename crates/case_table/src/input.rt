// The lines of a table that say what is run, and give it its words and its input.
use crate::case::Case;
use crate::texts::{push_words, text_of};
use anyhow::{Context, Result};
use std::alloc::Global;
use std::fs;
use std::str::from_utf8;

/// Takes a line that says what is run, or gives words or input; whether it is one.
pub fn take_input(rt: &HostRuntime, case: &mut Case, key: &str, rest: &str) -> Result<bool> {
    let alloc = rt.alloc();
    let input = &case.input;
    match key {
        "mirror" => case.mirror = true,
        "words" => push_words(alloc, &mut case.words, rest)?,
        "file" => case.input.append(&mut fs::read(rt, rest)?)?,
        "text" => case.input.append(&mut text_of(alloc, rest)?.into_bytes())?,
        "old" => case.old = text_of(alloc, rest)?,
        "new" => case.input = with_first(alloc, input, &case.old, &text_of(alloc, rest)?)?,
        "everywhere" => case.input = with_each(alloc, input, &case.old, &text_of(alloc, rest)?)?,
        "many" => case.input = with_copies(alloc, input, rest)?,
        "numbered" => case.input = with_numbers(alloc, input, rest)?,
        "front" => case.input = front_of(alloc, input, rest.parse::<usize>()?)?,
        "repeat" => case.input = input.repeat(alloc, rest.parse::<usize>()?)?,
        _ => return Ok(false),
    }
    Ok(true)
}

/// The input where another piece stands in place of the first such one.
pub fn with_first(alloc: Global, input: &[u8], old: &str, new: &str) -> Result<Vec<u8>> {
    let (before, after) = from_utf8(input)?.split_once(old).context("no such piece")?;
    let other = format!(in alloc; "{before}{new}{after}")?;
    Ok(other.into_bytes())
}

// The input where another piece stands in place of each such one.
fn with_each(alloc: Global, input: &[u8], old: &str, new: &str) -> Result<Vec<u8>> {
    let input = from_utf8(input)?;
    input.split_once(old).context("no such piece")?;
    Ok(input.replace(alloc, old, new)?.into_bytes())
}

// A mark, a number and a text, with blanks between them.
fn mark_of(rest: &str) -> Result<(&str, usize, &str)> {
    let (mark, rest) = rest.split_once(" ").context("no number")?;
    let (count, text) = rest.split_once(" ").context("no text")?;
    Ok((mark, count.parse::<usize>()?, text))
}

// The input where so many copies of a text stand in place of each mark.
fn with_copies(alloc: Global, input: &[u8], rest: &str) -> Result<Vec<u8>> {
    let (mark, count, text) = mark_of(rest)?;
    let copies = text_of(alloc, text)?.repeat(alloc, count)?;
    with_each(alloc, input, mark, &copies)
}

// The input where so many texts stand in place of each mark, each with its number, from 0, for `#`.
fn with_numbers(alloc: Global, input: &[u8], rest: &str) -> Result<Vec<u8>> {
    let (mark, count, text) = mark_of(rest)?;
    let text = text_of(alloc, text)?;
    let mut texts = String::new(alloc);
    for number in 0..count {
        let number = format!(in alloc; "{number}")?;
        texts.push_str(&text.replace(alloc, "#", &number)?)?;
    }
    with_each(alloc, input, mark, &texts)
}

/// The first so many bytes of a text.
pub fn front_of(alloc: Global, text: &[u8], count: usize) -> Result<Vec<u8>> {
    let front = text.get(..count).context("no such front")?;
    Ok(front.to_vec(alloc)?)
}
