// What a consensus says of an authority, and by whom it is signed.
ghost use Rattle.std.specs.Prelude.{◌≡◌, ◌++◌, IfOk, OnErr, OnOk};
ghost use Rattle.frame_values.specs.Values.{item_at};
ghost use Rattle.consensus_doc.specs.Drafts as drafts;

use crate::says::{source_at, vote_digest_at};
use consensus_frame::ConsensusValue;
use consensus_terms::{SignatureLine, SourceLine};
use dir_bytes::{Memory, Seq, Text};
use dir_values::Algorithm;
use frame_terms::{Keyword, Taken};
use frame_values::{Value, VoteSignature, copy_part, copy_part_if, decode_part, item_at, text_if};
use std::alloc::Global;

/// What an authority's section says.
///
/// # Errors
/// `Memory` is want of memory.
pub(crate) fn source_of(
    alloc: Global,
    bytes: &[u8],
    taken: &[Taken<Value<ConsensusValue>>],
) -> Result<SourceLine, Memory>
    ensures { IfOk result (λ source. source ≡ drafts.source_of bytes.now taken.now) }
{
    let source = source_at(taken);
    Ok(SourceLine {
        nickname: copy_part(alloc, bytes, source.nickname)?,
        identity: source.identity,
        address: copy_part(alloc, bytes, source.address)?,
        ip: source.ip,
        dir_port: source.dir_port,
        or_port: source.or_port,
        contact: copy_part_if(alloc, bytes, text_if(taken, Keyword::Contact))?,
        vote_digest: vote_digest_at(taken),
    })
}

/// The name of an algorithm; one that is not named is SHA-1.
fn algorithm_name(named: Option<Algorithm>) -> &'static [u8]
    ensures { result.now ≡ drafts.algorithm_name named }
{
    match named {
        None | Some(Algorithm::Sha1) => b"sha1",
        Some(Algorithm::Sha256) => b"sha256",
    }
}

/// A signature.
fn signature_of(alloc: Global, bytes: &[u8], kept: &VoteSignature) -> Result<SignatureLine, Memory>
    ensures { IfOk result (λ line. line ≡ drafts.signature_of bytes.now kept.now) }
{
    Ok(SignatureLine {
        algorithm: Text::copy_of(alloc, algorithm_name(kept.algorithm))?,
        identity: kept.identity,
        key_digest: kept.key_digest,
        signature: decode_part(alloc, bytes, kept.signature)?,
    })
}

/// Adds the signature that a value is, if it is one whose algorithm is known.
fn push_signature(
    lines: &mut Seq<SignatureLine>,
    alloc: Global,
    bytes: &[u8],
    value: Value<ConsensusValue>,
) -> Result<(), Memory>
    ensures ok { OnOk result (lines.new ≡ lines.old ++ drafts.signatures_in bytes.now value) }
    ensures err { OnErr result (lines.new ≡ lines.old) }
{
    if let Value::Own(ConsensusValue::Signature(Some(kept))) = value {
        lines.push(signature_of(alloc, bytes, &kept)?)?;
    }
    Ok(())
}

/// The signatures of a section, in their order.
///
/// # Errors
/// `Memory` is want of memory.
pub(crate) fn all_signatures(
    alloc: Global,
    bytes: &[u8],
    taken: &[Taken<Value<ConsensusValue>>],
) -> Result<Seq<SignatureLine>, Memory>
    ensures { IfOk result (λ lines. lines ≡ drafts.all_signatures bytes.now taken.now) }
{
    let mut lines = Seq::new(Vec::new(alloc));
    'taken: for one in taken {
        push_signature(&mut lines, alloc, bytes, one.value)?;
    }
    Ok(lines)
}

/// The place after the signed part, which ends with the space behind the first `directory-signature`.
pub(crate) fn signed_end(taken: &[Taken<Value<ConsensusValue>>]) -> Option<u64>
    ensures { result ≡ drafts.signed_end (item_at taken.now Keyword.DirectorySignature) }
{
    match item_at(taken, Keyword::DirectorySignature) {
        None => None,
        Some(one) => Some(one.separator.saturating_add(1)),
    }
}
