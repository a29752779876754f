// The identities that a consensus includes.
ghost use Rattle.std.specs.{Prelude.{◌≡◌, ◌++◌, IfOk, OnOk, option_map, OnErr}, Option.option_to_list};
ghost use Rattle.compute_terms.specs.Identities as terms;

use crate::members::eds_at;
use crate::merge::Merge;
use crate::parts::included_part;
use compute_terms::{EdPart, Identity};
use dir_bytes::Memory;
use dir_values::Fingerprint;
use std::alloc::Global;
use vote_doc::Accepted;

/// The identities that are included, ascending by RSA identity, where the roster has so many authorities.
///
/// # Errors
/// `Memory` is want of memory.
pub fn identities(alloc: Global, roster: u32, votes: &Accepted) -> Result<Vec<Identity>, Memory>
    ensures { IfOk result (λ identities. identities.items ≡ terms.included_identities roster votes.now.votes) }
{
    let mut eds = Vec::new(alloc);
    let mut group = Vec::with_capacity(alloc, votes.len())?;
    let mut walk = Merge::new(alloc, votes)?;
    let mut identities = Vec::new(alloc);
    'relays: while let Some(rsa) = walk.next(&mut group) {
        eds_at(votes, &group, &mut eds)?;
        let part = included_part(roster, &eds);
        push_if(&mut identities, rsa, part)?;
    }
    Ok(identities)
}

/// Adds an identity with its part, where it is included.
fn push_if(
    identities: &mut Vec<Identity>,
    rsa: Fingerprint,
    part: Option<EdPart>,
) -> Result<(), Memory>
    ensures ok { OnOk result (identities.new.items ≡ identities.old.items ++ option_to_list (option_map (λ ed. record { rsa = rsa; ed = ed }) part)) }
    ensures err { OnErr result (identities.new.items ≡ identities.old.items) }
{
    if let Some(ed) = part {
        identities.push(Identity { rsa, ed })?;
    }
    Ok(())
}
