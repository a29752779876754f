// The detached signatures of a consensus in both flavours.
ghost use Rattle.std.specs.Prelude.{◌≡◌, ◌∷◌, ◌++◌, [], IfOk, OnOk, map};
ghost use Rattle.detached_doc.specs.Held as held;

use crate::detached::{AdditionalDigest, Detached, DetachedLine};
use consensus_terms::{ConsensusFacts, SignatureLine};
use dir_bytes::{Memory, Seq, Text};
use dir_values::{Digest1, Digest2};
use std::alloc::Global;

/// The digest of the microdesc flavour, alone.
fn micro_digests(alloc: Global, digest: &Digest2) -> Result<Seq<AdditionalDigest>, Memory>
    ensures { IfOk result (λ digests. digests ≡ held.micro_digest digest.now ∷ []) }
{
    let mut digests = Vec::with_capacity(alloc, 1)?;
    digests.push(AdditionalDigest {
        flavour: Text::copy_of(alloc, b"microdesc")?,
        algorithm: Text::copy_of(alloc, b"sha256")?,
        digest: Text::copy_of(alloc, &digest.0)?,
    })?;
    Ok(Seq::new(digests))
}

/// A signature over the microdesc flavour.
fn over_micro(alloc: Global, line: &SignatureLine) -> Result<DetachedLine, Memory>
    ensures { IfOk result (λ detached. detached ≡ held.over_micro line.now) }
{
    Ok(DetachedLine {
        flavour: Some(Text::copy_of(alloc, b"microdesc")?),
        line: line.copy(alloc)?,
    })
}

/// A signature over the ns flavour.
fn over_ns(alloc: Global, line: &SignatureLine) -> Result<DetachedLine, Memory>
    ensures { IfOk result (λ detached. detached ≡ held.over_ns line.now) }
{
    Ok(DetachedLine {
        flavour: None,
        line: line.copy(alloc)?,
    })
}

/// Adds signatures over the microdesc flavour.
fn push_micro(
    out: &mut Seq<DetachedLine>,
    alloc: Global,
    lines: &[SignatureLine],
) -> Result<(), Memory>
    ensures { OnOk result (out.new ≡ out.old ++ map held.over_micro lines.now) }
{
    'lines: for line in lines {
        out.push(over_micro(alloc, line)?)?;
    }
    Ok(())
}

/// Adds signatures over the ns flavour.
fn push_ns(
    out: &mut Seq<DetachedLine>,
    alloc: Global,
    lines: &[SignatureLine],
) -> Result<(), Memory>
    ensures { OnOk result (out.new ≡ out.old ++ map held.over_ns lines.now) }
{
    'lines: for line in lines {
        out.push(over_ns(alloc, line)?)?;
    }
    Ok(())
}

/// The detached signatures of a consensus that says this, by the digests of its two flavours and the signatures over them (dir-spec,
/// "Serving and fetching detached signatures").
///
/// # Errors
/// `Memory` is want of memory.
pub fn held_signatures(
    alloc: Global,
    facts: &ConsensusFacts,
    ns: &Digest1,
    microdesc: &Digest2,
    ns_lines: &[SignatureLine],
    micro_lines: &[SignatureLine],
) -> Result<Detached, Memory>
    ensures { IfOk result (λ detached. detached ≡ held.held_signatures facts.now ns.now microdesc.now ns_lines.now micro_lines.now) }
{
    let mut signatures = Seq::new(Vec::new(alloc));
    push_micro(&mut signatures, alloc, micro_lines)?;
    push_ns(&mut signatures, alloc, ns_lines)?;
    Ok(Detached {
        ns: *ns,
        valid_after: facts.valid_after,
        fresh_until: facts.fresh_until,
        valid_until: facts.valid_until,
        additional: micro_digests(alloc, microdesc)?,
        signatures,
    })
}
