// The authorities of a rehearsal.
ghost use Rattle.std.specs.Prelude.{◌≡◌, ◌≤◌, IfOk, OnOk, length};
ghost use Rattle.vote_rehearsal.specs.Authorities as authorities_of;
ghost use Rattle.vote_rehearsal.specs.Private.{MakeRoster};

use crate::names::seeded;
use dir_bytes::{Memory, Text};
use dir_values::{Fingerprint, Roster};
use sha1::Sha1;
use sha2::Digest;
use std::alloc::Global;

/// An authority of a rehearsal.
#[derive(Drop)]
pub(crate) struct Authority {
    /// Its number, from 1.
    pub number: u8,
    /// Its fingerprint.
    pub identity: Fingerprint,
    /// Its identity key.
    pub identity_key: Text,
    /// Its signing key.
    pub signing_key: Text,
}

/// The authority with a number.
///
/// # Errors
/// `Memory` is want of memory.
fn authority_of(alloc: Global, seed: u64, number: u8) -> Result<Authority, Memory>
    ensures { IfOk result (λ authority. authority ≡ authorities_of.authority_of seed number) }
{
    let identity_key = seeded(alloc, b"authority-", number as u32, seed)?;
    Ok(Authority {
        number,
        identity: Fingerprint(Sha1::digest(&identity_key)),
        identity_key: Text::new(identity_key),
        signing_key: Text::new(seeded(alloc, b"signing-", number as u32, seed)?),
    })
}

/// Whether one of the authorities has a fingerprint.
fn has_identity(authorities: &[Authority], identity: &Fingerprint) -> bool
    ensures { result ≡ authorities_of.has_identity authorities.now identity.now }
{
    authorities
        .iter()
        .any(|other| other.identity.is_same(identity))
}

/// Puts an authority to those that vote, unless one of them has its fingerprint.
///
/// # Errors
/// `Memory` is want of memory.
fn push_voter(voters: &mut Vec<Authority>, authority: Authority) -> Result<(), Memory>
    ensures { OnOk result (voters.new.items ≡ authorities_of.with_voter voters.old.items authority) }
{
    if !has_identity(voters, &authority.identity) {
        voters.push(authority)?;
    }
    Ok(())
}

/// The authorities that vote, of so many.
///
/// # Errors
/// `Memory` is want of memory.
#[tactic(auto, unfolding(crate::specs::Authorities::voters))]
pub(crate) fn voters(alloc: Global, seed: u64, count: u8) -> Result<Vec<Authority>, Memory>
    requires { (1 ≤ count) × (count ≤ 32) }
    ensures voters { IfOk result (λ found. found.items ≡ authorities_of.voters seed count) }
    ensures roster { IfOk result (λ found. MakeRoster found.items) }
    ensures few { IfOk result (λ found. length found.items ≤ 32) }
{
    let mut found = Vec::with_capacity(alloc, count as usize)?;
    'authorities: for before in 0..count {
        let authority = authority_of(alloc, seed, before + 1)?;
        push_voter(&mut found, authority)?;
    }
    Ok(found)
}

/// The fingerprints of authorities.
///
/// # Errors
/// `Memory` is want of memory.
fn members_of(alloc: Global, authorities: &[Authority]) -> Result<Vec<Fingerprint>, Memory>
    ensures { IfOk result (λ members. members.items ≡ authorities_of.members_of authorities.now) }
{
    let mut members = Vec::with_capacity(alloc, authorities.len())?;
    'authorities: for authority in authorities {
        members.push(authority.identity)?;
    }
    Ok(members)
}

/// The roster that the fingerprints of authorities make.
///
/// # Errors
/// `Memory` is want of memory.
pub(crate) fn roster_of(alloc: Global, authorities: &[Authority]) -> Result<Roster, Memory>
    requires { MakeRoster authorities.now }
    ensures { IfOk result (λ roster. roster ≡ authorities_of.members_of authorities.now) }
{
    match Roster::new(members_of(alloc, authorities)?) {
        Ok(roster) => Ok(roster),
        Err(_) => unreachable!(),
    }
}
