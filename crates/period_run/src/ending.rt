// What an authority holds at the end: its changes, and its documents.
use anyhow::{Result, bail};
use checked_sigs::next_signatures;
use consensus_terms::Flavour;
use dir_bytes::Text;
use dir_values::Fingerprint;
use hex::{encode, encode_upper};
use key_port::TestKeys;
use period_core::PeriodState;
use period_terms::{Change, ChangeKind, Name};
use sha2::{Digest, Sha256};
use std::alloc::{AllocError, Global};

// The name of a kind of changes.
fn kind_name(kind: ChangeKind) -> &'static str {
    match kind {
        ChangeKind::Vote => "vote",
        ChangeKind::Freeze => "freeze",
        ChangeKind::Compute => "compute",
        ChangeKind::NoConsensus => "no-consensus",
        ChangeKind::Sign => "sign",
        ChangeKind::NoOwnVote => "no-own-vote",
        ChangeKind::Signature => "signature",
        ChangeKind::Publish => "publish",
        ChangeKind::Miss => "miss",
        ChangeKind::Begin => "begin",
    }
}

// An authority, if there is one.
fn authority_text(alloc: Global, authority: Option<Fingerprint>) -> Result<String, AllocError> {
    match authority {
        Some(authority) => encode_upper(alloc, &authority.0),
        None => String::from_str(alloc, "-"),
    }
}

// Some digests, if there are some.
fn digests_text(alloc: Global, digests: &[u8]) -> Result<String, AllocError> {
    if digests.is_empty() {
        return String::from_str(alloc, "-");
    }
    encode(alloc, digests)
}

// A change: its kind, its authority, its moment, and its digests.
fn change_text(alloc: Global, change: &Change) -> Result<String, AllocError> {
    let kind = kind_name(change.kind);
    let authority = authority_text(alloc, change.authority)?;
    let published = change.published;
    let digests = digests_text(alloc, change.digest.as_bytes())?;
    format!(in alloc; "{kind} {authority} {published} {digests}")
}

// Prints the changes since the period began.
fn print_changes(rt: &HostRuntime, state: &PeriodState<TestKeys>) -> Result<()> {
    let mut number = state.base();
    for change in state.changes() {
        number = number.saturating_add(1);
        let change = change_text(rt.alloc(), change)?;
        println!(rt; "end -> change {number} {change}")?;
    }
    Ok(())
}

// The SHA-256 of a document, if there is one.
fn digest_text(alloc: Global, document: Option<&[u8]>) -> Result<String, AllocError> {
    match document {
        Some(text) => encode_upper(alloc, &Sha256::digest(text)),
        None => String::from_str(alloc, "-"),
    }
}

// Prints the digest of a document, if there is one.
fn print_document(rt: &HostRuntime, name: &str, document: Option<&[u8]>) -> Result<()> {
    let digest = digest_text(rt.alloc(), document)?;
    println!(rt; "{name} -> {digest}")?;
    Ok(())
}

// The bytes of a text, if there is one.
fn bytes_of(text: &Option<Text>) -> Option<&[u8]> {
    match text {
        Some(text) => Some(text.as_bytes()),
        None => None,
    }
}

// Prints the document of a flavour that would be published now.
fn print_next(
    rt: &HostRuntime,
    state: &PeriodState<TestKeys>,
    name: &str,
    flavour: Flavour,
) -> Result<()> {
    match state.next_consensus(rt.alloc(), flavour) {
        Ok(text) => print_document(rt, name, bytes_of(&text)),
        Err(_) => bail!("no memory"),
    }
}

// Prints the document of a flavour that was published last.
fn print_current(
    rt: &HostRuntime,
    state: &PeriodState<TestKeys>,
    name: &str,
    flavour: Flavour,
) -> Result<()> {
    print_document(rt, name, state.document(&Name::Current(flavour)))
}

// Prints the document of the signatures that are held.
fn print_signatures(rt: &HostRuntime, state: &PeriodState<TestKeys>) -> Result<()> {
    match next_signatures(state, rt.alloc()) {
        Ok(text) => print_document(rt, "next-signatures", bytes_of(&text)),
        Err(_) => bail!("no memory"),
    }
}

/// Prints the changes since the period began, and the documents.
pub fn print_end(rt: &HostRuntime, state: &PeriodState<TestKeys>) -> Result<()> {
    let front = state.front();
    println!(rt; "end -> front {front}")?;
    print_changes(rt, state)?;
    print_next(rt, state, "next ns", Flavour::Ns)?;
    print_current(rt, state, "current ns", Flavour::Ns)?;
    print_next(rt, state, "next microdesc", Flavour::Microdesc)?;
    print_current(rt, state, "current microdesc", Flavour::Microdesc)?;
    print_signatures(rt, state)
}
