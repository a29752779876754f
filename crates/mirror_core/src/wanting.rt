// Which microdescriptors are asked for next.
ghost use Rattle.std.specs.Prelude.{◌≡◌, ◌≤◌, ◌++◌, [], ◌∷◌, IfOk, OnOk, if◌then◌else◌};
ghost use Rattle.mirror_core.specs.Wanting as wanting;

use crate::shelf::Shelf;
use dir_bytes::Memory;
use std::alloc::Global;

/// So many microdescriptors are asked for at once (dir-spec, "Downloading microdescriptors from directory authorities").
pub const MOST_WANTED: usize = 92;

/// Whether a digest is among others.
fn is_among(digests: &[[u8; 32]], digest: &[u8; 32]) -> bool
    ensures { result ≡ wanting.is_among digests.now digest.now }
{
    digests.iter().any(|other| *other == *digest)
}

/// Whether a digest is passed over: its microdescriptor is held, or it was found before.
fn is_passed(shelf: &Shelf, found: &[[u8; 32]], digest: &[u8; 32]) -> bool
    ensures { result ≡ wanting.is_passed shelf.now found.now digest.now }
{
    shelf.micro(digest).is_some() || is_among(found, digest)
}

/// Adds a digest, unless it is passed over.
fn add(shelf: &Shelf, found: &mut Vec<[u8; 32]>, digest: &[u8; 32]) -> Result<(), Memory>
    ensures { OnOk result (found.new.items ≡ (if wanting.is_passed shelf.now found.old.items digest.now then found.old.items else found.old.items ++ digest.now ∷ [])) }
{
    if !is_passed(shelf, found, digest) {
        found.push(*digest)?;
    }
    Ok(())
}

/// The first 92 of some digests whose microdescriptor is not held, in their order, each once.
///
/// # Errors
/// `Memory` is want of memory.
pub fn wanted(alloc: Global, shelf: &Shelf, digests: &[[u8; 32]]) -> Result<Vec<[u8; 32]>, Memory>
    ensures { IfOk result (λ found. found.items ≡ wanting.first_missing shelf.now digests.now) }
{
    let mut found = Vec::new(alloc);
    'digests: for digest in digests {
        if found.len() == MOST_WANTED {
            return Ok(found);
        }
        add(shelf, &mut found, digest)?;
    }
    Ok(found)
}
