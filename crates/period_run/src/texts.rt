// Words, moments and digests as they stand in a line.
use anyhow::{Result, bail};
use dir_bytes::{LAST_MOMENT, push_time};
use hex::encode_upper;
use std::alloc::{AllocError, Global};
use vote_terms::Rank;

/// The words of a line.
pub fn words_of(alloc: Global, line: &str) -> Result<Vec<&str>, AllocError> {
    let mut words = Vec::new(alloc);
    for word in line.split_whitespace() {
        words.push(word)?;
    }
    Ok(words)
}

/// The word behind another.
pub fn word_after<'a>(words: &[&'a str], name: &str) -> Result<&'a str> {
    let mut found = false;
    for word in words {
        if found {
            return Ok(word);
        }
        found = *word == name;
    }
    bail!("a word is missing")
}

/// The number behind a word.
pub fn number_after(words: &[&str], name: &str) -> Result<u64> {
    Ok(word_after(words, name)?.parse::<u64>()?)
}

/// A moment, as it stands in a document.
pub fn time_text(alloc: Global, moment: u64) -> Result<String> {
    if moment > LAST_MOMENT {
        bail!("no moment");
    }
    let mut text = Vec::new(alloc);
    if push_time(&mut text, moment).is_err() {
        bail!("no memory");
    }
    Ok(String::from_utf8(text)?)
}

/// A rank: when the vote was published, and its digest.
pub fn rank_text(alloc: Global, rank: Rank) -> Result<String, AllocError> {
    let published = rank.published;
    let whole = encode_upper(alloc, &rank.whole.0)?;
    format!(in alloc; "{published}/{whole}")
}

/// A name and a number.
pub fn with_number(alloc: Global, name: &str, number: u64) -> Result<String, AllocError> {
    format!(in alloc; "{name} {number}")
}

/// A name and a digest.
pub fn with_digest(alloc: Global, name: &str, digest: &[u8]) -> Result<String, AllocError> {
    let digest = encode_upper(alloc, digest)?;
    format!(in alloc; "{name} {digest}")
}

/// Whether something is, as a word.
pub fn truth(is: bool) -> &'static str {
    if is { "True" } else { "False" }
}
