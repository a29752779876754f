// What items of detached signatures alone say.
ghost use Rattle.std.specs.Prelude.{◌≡◌, ◌++◌, OnOk};
ghost use Rattle.frame_values.specs.Values.{item_at};
ghost use Rattle.detached_doc.specs.Saying as saying;

use detached_frame::{AdditionalDigestLine, AdditionalSignatureLine, DetachedValue};
use dir_bytes::Seq;
use dir_values::Digest1;
use frame_terms::{Keyword, Taken};
use frame_values::{Value, VoteSignature, own_at};
use std::alloc::AllocError;

/// A signature, and where its texts stand.
#[derive(Clone, Copy)]
pub(crate) enum SignedLine {
    /// A `directory-signature`.
    Plain(VoteSignature),
    /// An `additional-signature`.
    Additional(AdditionalSignatureLine),
}

/// The digest of the consensus.
pub(crate) fn digest_at(taken: &[Taken<Value<DetachedValue>>]) -> Digest1
    ensures { result ≡ saying.digest_in (item_at taken.now Keyword.ConsensusDigest) }
{
    match own_at(taken, Keyword::ConsensusDigest) {
        Some(DetachedValue::Digest(digest)) => digest,
        _ => Digest1([0; 20]),
    }
}

/// The digest of another flavour that a value is, if it is one.
fn digest_if(value: Value<DetachedValue>) -> Option<AdditionalDigestLine>
    ensures { result ≡ saying.digest_if value }
{
    match value {
        Value::Own(DetachedValue::AdditionalDigest(line)) => Some(line),
        _ => None,
    }
}

/// Adds the digests of other flavours.
///
/// # Errors
/// There was no memory.
pub(crate) fn push_digests(
    out: &mut Seq<AdditionalDigestLine>,
    taken: &[Taken<Value<DetachedValue>>],
) -> Result<(), AllocError>
    ensures { OnOk result (out.new ≡ out.old ++ saying.digests_in taken.now) }
{
    for one in taken {
        if let Some(line) = digest_if(one.value) {
            out.push(line)?;
        }
    }
    Ok(())
}

/// The signature that a value is, if it is one, and its algorithm is known where it is a `directory-signature`.
fn line_if(value: Value<DetachedValue>) -> Option<SignedLine>
    ensures { result ≡ saying.line_if value }
{
    match value {
        Value::Own(DetachedValue::Signature(Some(signature))) => Some(SignedLine::Plain(signature)),
        Value::Own(DetachedValue::AdditionalSignature(line)) => Some(SignedLine::Additional(line)),
        _ => None,
    }
}

/// Adds the signatures.
///
/// # Errors
/// There was no memory.
pub(crate) fn push_lines(
    out: &mut Seq<SignedLine>,
    taken: &[Taken<Value<DetachedValue>>],
) -> Result<(), AllocError>
    ensures { OnOk result (out.new ≡ out.old ++ saying.lines_in taken.now) }
{
    for one in taken {
        if let Some(line) = line_if(one.value) {
            out.push(line)?;
        }
    }
    Ok(())
}
