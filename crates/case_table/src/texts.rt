// Texts, words and numbers as they stand in a table.
use anyhow::{Context, Result};
use std::alloc::{AllocError, Global};

/// A text in which `\n`, `\r`, `\t`, `\s`, `\0` and `\e` are a line feed, a carriage return, a tab, a blank, a byte
/// zero and nothing.
pub fn text_of(alloc: Global, text: &str) -> Result<String, AllocError> {
    let text = text.replace(alloc, "\\n", "\n")?;
    let text = text.replace(alloc, "\\r", "\r")?;
    let text = text.replace(alloc, "\\t", "\t")?;
    let text = text.replace(alloc, "\\s", " ")?;
    let text = text.replace(alloc, "\\0", "\0")?;
    text.replace(alloc, "\\e", "")
}

/// Adds words that stand in a line with blanks between them.
pub fn push_words(alloc: Global, words: &mut Vec<String>, text: &str) -> Result<(), AllocError> {
    for word in text.split_whitespace() {
        words.push(text_of(alloc, word)?)?;
    }
    Ok(())
}

/// The numbers that stand in a line with blanks between them.
pub fn numbers_of(alloc: Global, text: &str) -> Result<Vec<u64>> {
    let mut numbers = Vec::new(alloc);
    for word in text.split_whitespace() {
        numbers.push(word.parse::<u64>().context("no number")?)?;
    }
    Ok(numbers)
}

/// The lines of a file.
pub fn lines_of(alloc: Global, text: &str) -> Result<Vec<String>, AllocError> {
    let mut lines = Vec::new(alloc);
    for line in text.lines() {
        lines.push(String::from_str(alloc, line)?)?;
    }
    Ok(lines)
}

/// What stands behind a mark in each line that has it, a line each.
pub fn parts_behind(alloc: Global, text: &str, mark: &str) -> Result<String, AllocError> {
    let mut parts = String::new(alloc);
    for line in text.lines() {
        if let Some((_, part)) = line.split_once(mark) {
            parts.push_str(part)?;
            parts.push_str("\n")?;
        }
    }
    Ok(parts)
}
