// What an authority answers, as text.
use crate::texts::{rank_text, truth, with_digest, with_number};
use period_terms::{Advance, Offer, SignIn};
use std::alloc::{AllocError, Global};
use vote_terms::Rank;

// An answer that tells a rank.
fn with_rank(alloc: Global, name: &str, rank: Rank) -> Result<String, AllocError> {
    let rank = rank_text(alloc, rank)?;
    format!(in alloc; "{name} {rank}")
}

// The answer to a vote that comes late.
fn late_text(alloc: Global, now: u64, cutoff: u64, frozen: bool) -> Result<String, AllocError> {
    let frozen = truth(frozen);
    format!(in alloc; "Late {now} {cutoff} {frozen}")
}

// The answer to a vote that takes the place of another.
fn replaced_text(alloc: Global, position: u64, old: Rank) -> Result<String, AllocError> {
    let old = rank_text(alloc, old)?;
    format!(in alloc; "Replaced {position} {old}")
}

/// What an offered vote is answered.
pub fn offer_text(alloc: Global, answer: Offer) -> Result<String, AllocError> {
    match answer {
        Offer::OtherPeriod { valid_after } => with_number(alloc, "OtherPeriod", valid_after),
        Offer::Stranger { authority } => with_digest(alloc, "Stranger", &authority.0),
        Offer::Late {
            now,
            cutoff,
            frozen,
        } => late_text(alloc, now, cutoff, frozen),
        Offer::Have { held } => with_rank(alloc, "Have", held),
        Offer::Older { held } => with_rank(alloc, "Older", held),
        Offer::Full => String::from_str(alloc, "Full"),
        Offer::Kept { position } => with_number(alloc, "Kept", position),
        Offer::Replaced { position, old } => replaced_text(alloc, position, old),
    }
}

// The answer where there are too few votes.
fn no_consensus_text(alloc: Global, held: u64, roster: u32) -> Result<String, AllocError> {
    format!(in alloc; "NoConsensus {held} {roster}")
}

// The answer where something is published.
fn published_text(alloc: Global, ns: bool, microdesc: bool) -> Result<String, AllocError> {
    let ns = truth(ns);
    let microdesc = truth(microdesc);
    format!(in alloc; "Published {ns} {microdesc}")
}

// The answer where too few signed.
fn missed_text(alloc: Global, ns: u32, microdesc: u32, roster: u32) -> Result<String, AllocError> {
    format!(in alloc; "Missed {ns} {microdesc} {roster}")
}

// The name of an answer to a moment.
fn advance_name(answer: &Advance) -> &'static str {
    match answer {
        Advance::Nothing => "Nothing",
        Advance::Frozen => "Frozen",
        Advance::Computed => "Computed",
        Advance::NoConsensus { .. } => "NoConsensus",
        Advance::NoOwnVote => "NoOwnVote",
        Advance::Signed => "Signed",
        Advance::Published { .. } => "Published",
        Advance::Missed { .. } => "Missed",
        Advance::Began { .. } => "Began",
        Advance::EndOfTime => "EndOfTime",
        Advance::SignerFault => "SignerFault",
        Advance::VerifierFault => "VerifierFault",
        Advance::OwnSignatureRefused { .. } => "OwnSignatureRefused",
    }
}

/// What a moment is answered.
pub fn advance_text(alloc: Global, answer: &Advance) -> Result<String, AllocError> {
    let name = advance_name(answer);
    match answer {
        Advance::NoConsensus { held, roster } => no_consensus_text(alloc, *held, *roster),
        Advance::Published { ns, microdesc } => published_text(alloc, *ns, *microdesc),
        Advance::Missed {
            ns,
            microdesc,
            roster,
        } => missed_text(alloc, *ns, *microdesc, *roster),
        Advance::Began { valid_after } => with_number(alloc, name, *valid_after),
        Advance::OwnSignatureRefused { digest } => with_digest(alloc, name, digest.as_bytes()),
        _ => String::from_str(alloc, name),
    }
}

/// What an offered signature is answered.
pub fn sign_in_text(alloc: Global, answer: &SignIn) -> Result<String, AllocError> {
    match answer {
        SignIn::OtherPeriod { valid_after } => with_number(alloc, "OtherPeriod", *valid_after),
        SignIn::NotComputed => String::from_str(alloc, "NotComputed"),
        SignIn::OtherDigest { ours } => with_digest(alloc, "OtherDigest", ours.as_bytes()),
        SignIn::Stranger { authority } => with_digest(alloc, "Stranger", &authority.0),
        SignIn::Have => String::from_str(alloc, "Have"),
        SignIn::Closed => String::from_str(alloc, "Closed"),
        SignIn::Kept { position } => with_number(alloc, "Kept", *position),
    }
}
