// Words and rosters as they stand in a line.
use anyhow::{Result, bail};
use dir_values::{Fingerprint, Roster};
use std::alloc::{AllocError, Global};

/// The words of a line.
pub fn words_of(alloc: Global, line: &str) -> Result<Vec<&str>, AllocError> {
    let mut words = Vec::new(alloc);
    for word in line.split_whitespace() {
        words.push(word)?;
    }
    Ok(words)
}

// The authority of an identity.
fn member_in(word: &str) -> Result<Fingerprint> {
    match Fingerprint::read(word.as_bytes()) {
        Ok(member) => Ok(member),
        Err(_) => bail!("no identity"),
    }
}

/// The roster of identities with commas between them.
pub fn roster_in(alloc: Global, text: &str) -> Result<Roster> {
    let mut members = Vec::new(alloc);
    for word in text.split(",") {
        members.push(member_in(word)?)?;
    }
    match Roster::new(members) {
        Ok(roster) => Ok(roster),
        Err(_) => bail!("no roster"),
    }
}
