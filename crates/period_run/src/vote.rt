// The votes that are offered.
use crate::authority::{Authority, signed_text};
use crate::texts::time_text;
use anyhow::{Result, bail};
use bytes::Bytes;
use dir_values::{Fingerprint, Roster};
use key_port::TestKeys;
use sha1::Sha1;
use std::alloc::Global;
use vote_doc::{CheckedVote, Vote, check_vote, read};

/// The roster of some authorities.
pub fn roster_of(members: Vec<Fingerprint>) -> Result<Roster> {
    match Roster::new(members) {
        Ok(roster) => Ok(roster),
        Err(_) => bail!("no roster"),
    }
}

// The signed part of the vote of an authority that was published then, for the period that begins then.
fn signed_part(
    alloc: Global,
    authority: &Authority,
    published: u64,
    valid_after: u64,
) -> Result<String> {
    let published = time_text(alloc, published)?;
    let period = time_text(alloc, valid_after)?;
    let text = authority.vote.replace(alloc, "PUBLISHED", &published)?;
    let text = text.replace(alloc, "VALID-AFTER", &period)?;
    Ok(format!(in alloc; "{text}directory-signature ")?)
}

// The vote with this signed part, signed and read.
fn signed_vote(alloc: Global, authority: &Authority, part: &str) -> Result<Vote> {
    let signed = signed_text(alloc, authority, &Sha1::digest(part.as_bytes()))?;
    let bytes = Bytes::from_string(format!(in alloc; "{part}{signed}")?)?;
    if bytes.len() > 100_000 {
        bail!("the vote is long");
    }
    match read(alloc, &bytes) {
        Ok((vote, _)) => Ok(vote),
        Err(_) => bail!("no vote"),
    }
}

/// The vote of an authority that was published then, for the period that begins then: signed, read and checked.
pub fn vote_of(
    alloc: Global,
    authority: &Authority,
    published: u64,
    valid_after: u64,
) -> Result<CheckedVote<TestKeys>> {
    let part = signed_part(alloc, authority, published, valid_after)?;
    let vote = signed_vote(alloc, authority, &part)?;
    let roster = roster_of(vec![in alloc; authority.identity]?)?;
    let mut keys = TestKeys::new(Vec::new(alloc));
    match check_vote(vote, &roster, valid_after, &mut keys) {
        Ok(checked) => Ok(checked),
        Err(_) => bail!("the vote is refused"),
    }
}
