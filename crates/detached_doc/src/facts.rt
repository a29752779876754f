// Detached signatures from the bytes and what was kept of them.
ghost use Rattle.std.specs.Prelude.{◌≡◌, IfOk, map};
ghost use Rattle.consensus_doc.specs.Drafts.{algorithm_name, signature_of};
ghost use Rattle.detached_doc.specs.Facts as facts;

use crate::detached::{AdditionalDigest, Detached, DetachedLine};
use crate::kept::Kept;
use crate::said::SignedLine;
use consensus_terms::SignatureLine;
use detached_frame::{AdditionalDigestLine, AdditionalSignatureLine};
use dir_bytes::{Memory, Seq, Text, read_hex_bytes};
use dir_values::Algorithm;
use frame_values::{Span, VoteSignature, copy_part, decode_part, moment, part};
use std::alloc::Global;

/// The bytes that stand in a span in hex; none where they are no hex.
fn hex_part(alloc: Global, bytes: &[u8], span: Span) -> Result<Text, Memory>
    ensures { IfOk result (λ text. text ≡ facts.hex_in bytes.now span) }
{
    match read_hex_bytes(alloc, part(bytes, span))? {
        Some(text) => Ok(text),
        None => Ok(Text::new(Vec::new(alloc))),
    }
}

/// The digest of another flavour, in these bytes.
fn digest_of(
    alloc: Global,
    bytes: &[u8],
    line: &AdditionalDigestLine,
) -> Result<AdditionalDigest, Memory>
    ensures { IfOk result (λ digest. digest ≡ facts.digest_in bytes.now line.now) }
{
    Ok(AdditionalDigest {
        flavour: copy_part(alloc, bytes, line.flavour)?,
        algorithm: copy_part(alloc, bytes, line.algorithm)?,
        digest: hex_part(alloc, bytes, line.digest)?,
    })
}

/// The digests of other flavours, in these bytes.
fn digests_of(
    alloc: Global,
    bytes: &[u8],
    lines: &[AdditionalDigestLine],
) -> Result<Seq<AdditionalDigest>, Memory>
    ensures { IfOk result (λ digests. digests ≡ map (facts.digest_in bytes.now) lines.now) }
{
    let mut digests = Vec::with_capacity(alloc, lines.len())?;
    for line in lines {
        digests.push(digest_of(alloc, bytes, line)?)?;
    }
    Ok(Seq::new(digests))
}

/// The name of an algorithm; one that is not named is SHA-1.
fn name_of(algorithm: Option<Algorithm>) -> &'static [u8]
    ensures { result.now ≡ algorithm_name algorithm }
{
    match algorithm {
        None | Some(Algorithm::Sha1) => b"sha1",
        Some(Algorithm::Sha256) => b"sha256",
    }
}

/// What a `directory-signature` says, in these bytes.
fn plain_of(alloc: Global, bytes: &[u8], signature: &VoteSignature) -> Result<SignatureLine, Memory>
    ensures { IfOk result (λ line. line ≡ signature_of bytes.now signature.now) }
{
    Ok(SignatureLine {
        algorithm: Text::copy_of(alloc, name_of(signature.algorithm))?,
        identity: signature.identity,
        key_digest: signature.key_digest,
        signature: decode_part(alloc, bytes, signature.signature)?,
    })
}

/// What an `additional-signature` says of who signed, in these bytes.
fn additional_of(
    alloc: Global,
    bytes: &[u8],
    said: &AdditionalSignatureLine,
) -> Result<SignatureLine, Memory>
    ensures { IfOk result (λ line. line ≡ facts.additional_in bytes.now said.now) }
{
    Ok(SignatureLine {
        algorithm: copy_part(alloc, bytes, said.algorithm)?,
        identity: said.identity,
        key_digest: said.key_digest,
        signature: decode_part(alloc, bytes, said.signature)?,
    })
}

/// A signature, in these bytes.
fn line_of(alloc: Global, bytes: &[u8], said: &SignedLine) -> Result<DetachedLine, Memory>
    ensures { IfOk result (λ line. line ≡ facts.line_in bytes.now said.now) }
{
    match said {
        SignedLine::Plain(signature) => Ok(DetachedLine {
            flavour: None,
            line: plain_of(alloc, bytes, signature)?,
        }),
        SignedLine::Additional(said) => Ok(DetachedLine {
            flavour: Some(copy_part(alloc, bytes, said.flavour)?),
            line: additional_of(alloc, bytes, said)?,
        }),
    }
}

/// The signatures, in these bytes.
fn lines_of(alloc: Global, bytes: &[u8], said: &[SignedLine]) -> Result<Seq<DetachedLine>, Memory>
    ensures { IfOk result (λ lines. lines ≡ map (facts.line_in bytes.now) said.now) }
{
    let mut lines = Vec::with_capacity(alloc, said.len())?;
    for one in said {
        lines.push(line_of(alloc, bytes, one)?)?;
    }
    Ok(Seq::new(lines))
}

/// The detached signatures of which this was kept.
///
/// # Errors
/// `Memory` is want of memory.
pub(crate) fn detached_of(alloc: Global, bytes: &[u8], kept: &Kept) -> Result<Detached, Memory>
    ensures { IfOk result (λ found. found ≡ facts.detached_in bytes.now kept.now) }
{
    Ok(Detached {
        ns: kept.head.ns,
        valid_after: moment(kept.head.valid_after),
        fresh_until: moment(kept.head.fresh_until),
        valid_until: moment(kept.head.valid_until),
        additional: digests_of(alloc, bytes, kept.additional.as_slice())?,
        signatures: lines_of(alloc, bytes, kept.signatures.as_slice())?,
    })
}
