// What a mirror gives for what is asked for.
ghost use Rattle.std.specs.Prelude.{◌≡◌, ◌≢◌, ◌++◌, IfOk, OnOk};
ghost use Rattle.http_words.specs.{DigestLists.digest_list, Replies.code_of as code_of_reply, Outcomes.code_of};
ghost use Rattle.mirror_core.specs.Answers.{consensus_text, micro_with};
ghost use Rattle.mirror_serve.specs.Given as given;

use dir_bytes::{Memory, Text};
use dir_values::Digest2;
use http_words::{Asked, Form, Outcome, Reply, behind, read_digests, unless_empty};
use key_port::Verifier;
use mirror_core::Mirror;
use std::alloc::Global;

/// A copy of the consensus, if one is held.
///
/// # Errors
/// `Memory` is want of memory.
fn consensus<V: Verifier>(alloc: Global, mirror: &Mirror<V>) -> Result<Option<Text>, Memory>
    ensures { IfOk result (λ found. found ≡ consensus_text mirror.now) }
{
    match mirror.consensus() {
        Some(bytes) => Ok(Some(Text::new(Vec::from_slice(alloc, bytes)?))),
        None => Ok(None),
    }
}

/// Appends the microdescriptor with a digest, if it is held.
///
/// # Errors
/// `Memory` is want of memory.
fn push_micro<V: Verifier>(
    out: &mut Vec<u8>,
    mirror: &Mirror<V>,
    digest: &Digest2,
) -> Result<(), Memory>
    ensures { OnOk result (out.new.items ≡ out.old.items ++ given.bytes_if (micro_with mirror.now digest.now.0)) }
{
    if let Some(bytes) = mirror.micro(digest) {
        out.extend_from_slice(bytes)?;
    }
    Ok(())
}

/// The microdescriptors that are held of those with digests, in the order of these.
///
/// # Errors
/// `Memory` is want of memory.
fn micros<V: Verifier>(
    alloc: Global,
    mirror: &Mirror<V>,
    digests: &[[u8; 32]],
) -> Result<Vec<u8>, Memory>
    ensures { IfOk result (λ bytes. bytes.items ≡ given.micros_with mirror.now digests.now) }
{
    let mut out = Vec::new(alloc);
    'digests: for digest in digests {
        push_micro(&mut out, mirror, &Digest2(*digest))?;
    }
    Ok(out)
}

/// The microdescriptors of a list of digests, if it is one, and one of them is held.
///
/// # Errors
/// `Memory` is want of memory.
fn micros_given<V: Verifier>(
    alloc: Global,
    mirror: &Mirror<V>,
    list: &[u8],
) -> Result<Option<Text>, Memory>
    ensures { IfOk result (λ found. found ≡ given.micros_given mirror.now (digest_list list.now)) }
{
    match read_digests(alloc, list)? {
        Some(digests) => Ok(unless_empty(micros(alloc, mirror, &digests)?)),
        None => Ok(None),
    }
}

/// The document that is asked for by a path, where the mirror has it.
///
/// # Errors
/// `Memory` is want of memory.
fn document<V: Verifier>(
    alloc: Global,
    mirror: &Mirror<V>,
    asked: Asked,
    path: &[u8],
) -> Result<Option<Text>, Memory>
    ensures { IfOk result (λ found. found ≡ given.given_document mirror.now asked path.now) }
{
    match asked {
        Asked::Current(Form::Microdesc) => consensus(alloc, mirror),
        Asked::AllKeys => Ok(unless_empty(mirror.certs()?)),
        Asked::Micros(place) => micros_given(alloc, mirror, behind(path, place)),
        _ => Ok(None),
    }
}

/// The answer where no document is given.
fn without(asked: Asked) -> Reply
    ensures value { result ≡ given.without asked }
    ensures verifier { code_of_reply result ≢ 503 }
{
    match asked {
        Asked::NotAllowed => Reply::NotAllowed,
        _ => Reply::NotFound,
    }
}

/// What comes of what is asked for by a path. No verifier is asked, so none is told to have failed.
///
/// # Errors
/// `Memory` is want of memory.
pub(crate) fn outcome_of<V: Verifier>(
    alloc: Global,
    mirror: &Mirror<V>,
    asked: Asked,
    path: &[u8],
) -> Result<Outcome, Memory>
    ensures gives { IfOk result (λ outcome. outcome ≡ given.outcome_of mirror.now asked path.now) }
    ensures verifier { IfOk result (λ outcome. code_of outcome ≢ 503) }
{
    match document(alloc, mirror, asked, path)? {
        Some(text) => Ok(Outcome::Found(text)),
        None => Ok(Outcome::Replied(without(asked))),
    }
}
