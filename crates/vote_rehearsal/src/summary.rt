// What a rehearsal writes.
ghost use Rattle.std.specs.Prelude.{◌≡◌, ◌≤◌, ◌++◌, IfOk, OnOk, count_by};
ghost use Rattle.consensus_terms.specs.{Moments.HasMoments, Signed.digests_of};
ghost use Rattle.consensus_terms.specs.Routers as routers_of;
ghost use Rattle.consensus_terms.specs.Texts as texts;
ghost use Rattle.vote_rehearsal.specs.Summaries as summaries;

use crate::authority::voters;
use crate::casting::held_votes;
use crate::listing::ascending_relays;
use consensus_calc::{CalcFault, compute};
use consensus_terms::{Consensus, Digests, Flavour, Routerline};
use consensus_text::{digests, unsigned};
use count_terms::Newest;
use dir_bytes::{Memory, push_decimal, push_hex_upper};
use dir_values::{Digest1, Digest2};
use std::alloc::Global;
use vote_doc::Accepted;

/// What is told of a consensus.
#[derive(Clone, Copy)]
pub(crate) struct Found {
    /// How many relays its ns flavour lists.
    pub ns: u64,
    /// How many its microdesc flavour lists.
    pub microdesc: u64,
    /// The SHA-1 of the signed part of its ns flavour.
    pub sha1: Digest1,
    /// The SHA-256 of the signed part of its microdesc flavour.
    pub sha256: Digest2,
}

/// Whether a flavour lists a relay.
fn is_listed(flavour: Flavour, router: &Routerline) -> bool
    ensures { result ≡ routers_of.is_listed flavour router.now }
{
    match flavour {
        Flavour::Ns => true,
        Flavour::Microdesc => router.m.is_some(),
    }
}

/// How many relays a flavour lists.
fn listed_in(flavour: Flavour, routers: &[Routerline]) -> u64
    ensures { result ≡ count_by (routers_of.is_listed flavour) routers.now }
{
    routers
        .iter()
        .filter(|router| is_listed(flavour, router))
        .count() as u64
}

/// The digests of the signed part of a consensus in a flavour.
fn digests_in(alloc: Global, consensus: &Consensus, flavour: Flavour) -> Result<Digests, Memory>
    requires { HasMoments consensus.now.facts }
    ensures { IfOk result (λ found. found ≡ digests_of (texts.unsigned flavour consensus.now)) }
{
    let text = unsigned(alloc, consensus, flavour)?;
    Ok(digests(&text))
}

/// What is told of a consensus.
fn found_in(alloc: Global, consensus: &Consensus) -> Result<Found, Memory>
    requires { HasMoments consensus.now.facts }
    ensures { IfOk result (λ found. found ≡ summaries.found_in consensus.now) }
{
    let routers = consensus.facts.routers.as_slice();
    Ok(Found {
        ns: listed_in(Flavour::Ns, routers),
        microdesc: listed_in(Flavour::Microdesc, routers),
        sha1: digests_in(alloc, consensus, Flavour::Ns)?.sha1,
        sha256: digests_in(alloc, consensus, Flavour::Microdesc)?.sha256,
    })
}

/// What is told where there is no consensus.
fn nothing_found() -> Found
    ensures { result ≡ summaries.nothing_found }
{
    let none = digests(b"");
    Found {
        ns: 0,
        microdesc: 0,
        sha1: none.sha1,
        sha256: none.sha256,
    }
}

/// What is told of the consensus of held votes, where the roster has so many authorities. Method 33 is the newest that a
/// rehearsal knows.
#[tactic(auto, unfolding(crate::specs::Summaries::found_of))]
fn found_of(alloc: Global, roster: u32, votes: &Accepted) -> Result<Found, Memory>
    ensures { IfOk result (λ found. found ≡ summaries.found_of roster votes.now.votes) }
{
    match compute(alloc, Newest::Method33, roster, votes) {
        Ok(consensus) => found_in(alloc, &consensus),
        Err(CalcFault::TooFew { .. }) => Ok(nothing_found()),
        Err(CalcFault::Memory) => Err(Memory),
    }
}

/// Appends a line with a number.
#[tactic(auto, unfolding(crate::specs::Summaries::count_line))]
fn push_count(out: &mut Vec<u8>, word: &[u8], count: u64) -> Result<(), Memory>
    ensures { OnOk result (out.new.items ≡ out.old.items ++ summaries.count_line word.now count) }
{
    out.extend_from_slice(word)?;
    out.push(b' ')?;
    push_decimal(out, count)?;
    out.push(b'\n')?;
    Ok(())
}

/// Appends a line with bytes as hex digits.
#[tactic(auto, unfolding(crate::specs::Summaries::digest_line))]
fn push_digest(out: &mut Vec<u8>, word: &[u8], bytes: &[u8]) -> Result<(), Memory>
    ensures { OnOk result (out.new.items ≡ out.old.items ++ summaries.digest_line word.now bytes.now) }
{
    out.extend_from_slice(word)?;
    out.push(b' ')?;
    push_hex_upper(out, bytes)?;
    out.push(b'\n')?;
    Ok(())
}

/// Appends the lines of so many authorities, relays and votes.
fn push_counts(out: &mut Vec<u8>, authorities: u32, relays: u32, votes: usize) -> Result<(), Memory>
    ensures { OnOk result (out.new.items ≡ out.old.items ++ summaries.count_lines authorities relays votes) }
{
    push_count(out, b"authorities", authorities as u64)?;
    push_count(out, b"relays", relays as u64)?;
    push_count(out, b"votes", votes as u64)?;
    Ok(())
}

/// Appends the lines of what is told of a consensus.
fn push_found(out: &mut Vec<u8>, found: &Found) -> Result<(), Memory>
    ensures { OnOk result (out.new.items ≡ out.old.items ++ summaries.found_lines found.now) }
{
    push_count(out, b"listed-ns", found.ns)?;
    push_count(out, b"listed-microdesc", found.microdesc)?;
    push_digest(out, b"ns-sha1", &found.sha1.0)?;
    push_digest(out, b"microdesc-sha256", &found.sha256.0)?;
    Ok(())
}

/// The summary of a rehearsal from a seed, of so many relays and authorities: how many votes are held, how many relays
/// each flavour of their consensus lists, and the digests of its signed parts.
///
/// # Errors
/// `Memory` is want of memory.
pub fn rehearse(alloc: Global, seed: u64, relays: u32, authorities: u32) -> Result<Vec<u8>, Memory>
    requires relays { relays ≤ 20000 }
    requires authorities { (1 ≤ authorities) × (authorities ≤ 32) }
    ensures { IfOk result (λ text. text.items ≡ summaries.summary_of seed relays authorities) }
{
    let listed = ascending_relays(alloc, seed, relays as u16, authorities as u8)?;
    let voters = voters(alloc, seed, authorities as u8)?;
    let held = held_votes(alloc, &listed, &voters)?;
    let found = found_of(alloc, voters.len() as u32, &held)?;
    let mut out = Vec::new(alloc);
    push_counts(&mut out, authorities, relays, held.len())?;
    push_found(&mut out, &found)?;
    Ok(out)
}
