// The paths that a mirror asks its peers for.
ghost use Rattle.std.specs.Prelude.{◌≡◌, ◌++◌, ◌∷◌, IfOk, OnOk};
ghost use Rattle.mirror_daemon.specs.Paths as paths;

use dir_bytes::Memory;
use dir_values::Digest2;
use std::alloc::Global;

/// Where all certificates of a peer are.
pub(crate) const CERTS_PATH: &[u8] = b"/tor/keys/all";

/// Where the microdesc consensus of a peer is.
pub(crate) const CONSENSUS_PATH: &[u8] = b"/tor/status-vote/current/consensus-microdesc";

/// Appends a digest behind a hyphen.
fn push_behind(path: &mut Vec<u8>, digest: &Digest2) -> Result<(), Memory>
    ensures { OnOk result (path.new.items ≡ path.old.items ++ paths.behind_hyphen digest.now) }
{
    path.push(b'-')?;
    digest.push(path)
}

/// Appends digests, each behind a hyphen.
fn push_others(path: &mut Vec<u8>, digests: &[Digest2]) -> Result<(), Memory>
    ensures { OnOk result (path.new.items ≡ path.old.items ++ paths.behind_hyphens digests.now) }
{
    'digests: for digest in digests {
        push_behind(path, digest)?;
    }
    Ok(())
}

/// Where the microdescriptors of some digests are (dir-spec, "General-use HTTP URLs").
///
/// # Errors
/// `Memory` is want of memory.
pub(crate) fn micros_path(alloc: Global, digests: &[Digest2]) -> Result<Vec<u8>, Memory>
    ensures { IfOk result (λ path. path.items ≡ paths.micros_path digests.now) }
{
    let mut path = Vec::from_slice(alloc, b"/tor/micro/d/")?;
    let Some((first, others)) = digests.split_first() else {
        return Ok(path);
    };
    first.push(&mut path)?;
    push_others(&mut path, others)?;
    Ok(path)
}
