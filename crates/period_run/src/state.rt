// The state of an authority, as its changes tell it.
use dir_values::Fingerprint;
use key_port::TestKeys;
use period_core::PeriodState;
use period_terms::{Change, ChangeKind};
use std::alloc::{AllocError, Global};

// The name of the stage.
fn stage_name(changes: &[Change]) -> &'static str {
    let mut name = "voting";
    for change in changes {
        match change.kind {
            ChangeKind::Freeze => name = "frozen",
            ChangeKind::Compute => name = "computed",
            ChangeKind::Sign | ChangeKind::NoOwnVote => name = "signed",
            ChangeKind::Publish | ChangeKind::Miss | ChangeKind::NoConsensus => name = "ended",
            ChangeKind::Vote | ChangeKind::Signature | ChangeKind::Begin => (),
        }
    }
    name
}

// Whether a change is of one signature over a digest of so many bytes.
fn is_over(change: &Change, size: usize) -> bool {
    matches!(change.kind, ChangeKind::Signature) && change.digest.as_bytes().len() == size
}

// Whether a change is an authority's own.
fn is_by(change: &Change, own: &Fingerprint) -> bool {
    match change.authority {
        Some(authority) => authority.is_same(own),
        None => false,
    }
}

// How many signatures over a digest of so many bytes are held. Its own take the place of its own that was.
fn signatures(changes: &[Change], own: &Fingerprint, size: usize) -> u64 {
    let mut count = 0u64;
    let mut has_own = false;
    for change in changes {
        let signs = matches!(change.kind, ChangeKind::Sign);
        if is_over(change, size) || (signs && !has_own) {
            count = count.saturating_add(1);
            has_own = has_own || is_by(change, own);
        }
    }
    count
}

// The period: how many changes there are, and when it begins.
fn period_text(alloc: Global, state: &PeriodState<TestKeys>) -> Result<String, AllocError> {
    let front = state.front();
    let base = state.base();
    let valid_after = state.valid_after();
    format!(in alloc; "front {front} base {base} valid-after {valid_after}")
}

// How many votes and signatures are held.
fn held_text(alloc: Global, state: &PeriodState<TestKeys>) -> Result<String, AllocError> {
    let own = state.own();
    let votes = state.votes().len();
    let ns = signatures(state.changes(), &own, 20);
    let microdesc = signatures(state.changes(), &own, 32);
    format!(in alloc; "votes {votes} ns {ns} microdesc {microdesc}")
}

/// The state: the stage, how many changes there are, the period, and how many votes and signatures are held.
pub fn state_text(alloc: Global, state: &PeriodState<TestKeys>) -> Result<String, AllocError> {
    let stage = stage_name(state.changes());
    let period = period_text(alloc, state)?;
    let held = held_text(alloc, state)?;
    format!(in alloc; "{stage} {period} {held}")
}
