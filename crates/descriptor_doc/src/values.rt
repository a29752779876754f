// What a descriptor says of which something was kept, in values of its own.
ghost use Rattle.std.specs.Prelude.{◌≡◌, ◌<◌, ◌≤◌, ◌^◌, ◌++◌, IfOk, length, map, option_map, option_and_then};
ghost use Rattle.std.specs.{Prelude.slice_range, List.position_or_len};
ghost use Rattle.sha2.specs.Sha256.{sha256};
ghost use Rattle.item_terms.specs.Words.{words_of};
ghost use Rattle.frame_values.specs.Parts as parts;
ghost use Rattle.descriptor_doc.specs.Descriptors as descriptors;

use crate::descriptor::{Descriptor, EdSignature, Router};
use crate::head::Head;
use crate::kept::Kept;
use bytes::Bytes;
use descriptor_frame::{EdCert, RouterLine};
use dir_bytes::{Memory, Seq, Text};
use dir_values::{Arguments, Digest1, Digest2, Fingerprint, PortSummary, ValueRefusal};
use frame_values::{Span, between, copy_part, copy_part_if, decode_part, moment, part};
use sha1::Sha1;
use sha2::{Digest, Sha256};
use std::alloc::Global;

/// The relay.
///
/// # Errors
/// `Memory` is want of memory.
fn router_of(alloc: Global, bytes: &[u8], line: &RouterLine) -> Result<Router, Memory>
    ensures { IfOk result (λ router. router ≡ descriptors.router_in bytes.now line.now) }
{
    Ok(Router {
        nickname: copy_part(alloc, bytes, line.nickname)?,
        ip: line.ip,
        or_port: line.or_port,
        socks_port: line.socks_port,
        dir_port: line.dir_port,
    })
}

/// The certificate whose lines stand in a span, where there is one.
///
/// # Errors
/// `Memory` is want of memory.
fn certificate_of(
    alloc: Global,
    bytes: &[u8],
    lines: Option<Span>,
) -> Result<Option<EdCert>, Memory>
    ensures { IfOk result (λ found. found ≡ option_and_then (descriptors.certificate_in bytes.now) lines) }
{
    let Some(lines) = lines else {
        return Ok(None);
    };
    let decoded = decode_part(alloc, bytes, lines)?;
    match EdCert::read(alloc, decoded.as_bytes()) {
        Ok(certificate) => Ok(Some(certificate)),
        Err(ValueRefusal::BadValue { .. }) => Ok(None),
        Err(ValueRefusal::Memory) => Err(Memory),
    }
}

/// The bytes of an object whose lines stand in a span, where there is one.
///
/// # Errors
/// `Memory` is want of memory.
pub fn decode_if(alloc: Global, bytes: &[u8], lines: Option<Span>) -> Result<Option<Text>, Memory>
    ensures { IfOk result (λ text. text ≡ option_map (parts.bytes_in bytes.now) lines) }
{
    match lines {
        Some(lines) => Ok(Some(decode_part(alloc, bytes, lines)?)),
        None => Ok(None),
    }
}

/// The summary of ports whose text stands in a span, where there is one.
///
/// # Errors
/// `Memory` is want of memory.
pub fn ports_if(
    alloc: Global,
    bytes: &[u8],
    span: Option<Span>,
) -> Result<Option<PortSummary>, Memory>
    ensures { IfOk result (λ found. found ≡ option_and_then (descriptors.ports_in bytes.now) span) }
{
    let Some(span) = span else {
        return Ok(None);
    };
    match PortSummary::read(alloc, part(bytes, span)) {
        Ok(ports) => Ok(Some(ports)),
        Err(ValueRefusal::BadValue { .. }) => Ok(None),
        Err(ValueRefusal::Memory) => Err(Memory),
    }
}

/// Copies of the words of a text.
///
/// # Errors
/// `Memory` is want of memory.
fn words_in(alloc: Global, text: &[u8]) -> Result<Seq<Text>, Memory>
    requires { length text.now < 2 ^ 62 }
    ensures { IfOk result (λ words. words ≡ words_of text.now) }
{
    let mut words = Vec::new(alloc);
    let mut arguments = Arguments::at(0, text);
    'words: while let Some(argument) = arguments.next() {
        words.push(Text::copy_of(alloc, argument.text)?)?;
    }
    Ok(Seq::new(words))
}

/// Copies of the words of the text that stands in a span, where there is one.
///
/// # Errors
/// `Memory` is want of memory.
pub fn words_if(
    alloc: Global,
    bytes: &[u8],
    span: Option<Span>,
) -> Result<Option<Seq<Text>>, Memory>
    requires { length bytes.now < 2 ^ 62 }
    ensures { IfOk result (λ words. words ≡ option_map (descriptors.words_in bytes.now) span) }
{
    match span {
        Some(span) => Ok(Some(words_in(alloc, part(bytes, span))?)),
        None => Ok(None),
    }
}

/// Copies of the texts that stand in these spans.
///
/// # Errors
/// `Memory` is want of memory.
fn texts_of(alloc: Global, bytes: &[u8], spans: &[Span]) -> Result<Seq<Text>, Memory>
    ensures { IfOk result (λ texts. texts ≡ map (parts.part bytes.now) spans.now) }
{
    let mut texts = Vec::with_capacity(alloc, spans.len())?;
    for span in spans {
        texts.push(copy_part(alloc, bytes, *span)?)?;
    }
    Ok(Seq::new(texts))
}

/// How many bytes stand before the first space; all, where there is none.
fn space_place(text: &[u8]) -> usize
    ensures place { result ≡ position_or_len descriptors.is_space text.now }
    ensures within { result ≤ length text.now }
{
    text.iter().take_while(|byte| **byte != b' ').count()
}

/// A text through its first space, and the whole text where it has none.
fn through_space(text: &[u8]) -> &[u8]
    ensures { result.now ≡ descriptors.through_space text.now }
{
    let place = space_place(text);
    if place < text.len() {
        &text[..place + 1]
    } else {
        text
    }
}

/// The SHA-256 of the words before the signed text, and of that text, of which this is the front and the back.
fn prefixed_digest(front: &[u8], back: &[u8]) -> [u8; 32]
    ensures { result ≡ sha256 (descriptors.ed_prefix ++ front.now ++ back.now) }
{
    let mut hasher = Sha256::new();
    hasher.update(b"Tor router descriptor signature v1");
    hasher.update(front);
    hasher.update(back);
    hasher.finalize()
}

/// The SHA-256 of what the Ed25519 signature is made over.
fn ed_digest(bytes: &[u8], head: &Head) -> [u8; 32]
    ensures { result ≡ descriptors.ed_digest bytes.now head.now }
{
    let front = between(bytes, head.begin, head.ed_separator);
    let back = through_space(between(bytes, head.ed_separator, head.end));
    prefixed_digest(front, back)
}

/// The Ed25519 signature and what it is made over, where there is one.
fn ed_signature_of(bytes: &[u8], head: &Head) -> Option<EdSignature>
    ensures { result ≡ option_map (descriptors.ed_signature_in bytes.now head.now) head.now.router_sig_ed25519 }
{
    match head.router_sig_ed25519 {
        Some(signature) => Some(EdSignature {
            signature,
            covered: Digest2(ed_digest(bytes, head)),
        }),
        None => None,
    }
}

/// The part of some bytes from one place to another, shared with them; places past their end name what there is.
///
/// # Errors
/// `Memory` is want of memory.
pub(crate) fn shared_between(bytes: &Bytes, start: u64, end: u64) -> Result<Bytes, Memory>
    ensures { IfOk result (λ part. part ≡ slice_range bytes.now start end) }
{
    let len = bytes.len();
    let from = if start < len as u64 {
        start as usize
    } else {
        len
    };
    let rest = len - from;
    let wanted = end.saturating_sub(start);
    let count = if wanted < rest as u64 {
        wanted as usize
    } else {
        rest
    };
    Ok(bytes.slice(from..from + count)?)
}

/// What the descriptor says of which this was kept, in the bytes of its document, which it shares.
///
/// # Errors
/// `Memory` is want of memory.
pub(crate) fn descriptor_of(alloc: Global, bytes: &Bytes, kept: Kept) -> Result<Descriptor, Memory>
    requires { length bytes.now < 2 ^ 62 }
    ensures { IfOk result (λ descriptor. descriptor ≡ descriptors.descriptor_in bytes.now kept) }
{
    let head = kept.head;
    let text = bytes.as_slice();
    let signing_key = decode_part(alloc, text, head.signing_key)?;
    let identity = Fingerprint(Sha1::digest(signing_key.as_bytes()));
    Ok(Descriptor {
        router: router_of(alloc, text, &head.router)?,
        identity_ed25519: certificate_of(alloc, text, head.identity_ed25519)?,
        master_key_ed25519: head.master_key_ed25519,
        platform: copy_part_if(alloc, text, head.platform)?,
        published: moment(head.published),
        fingerprint: head.fingerprint,
        uptime: head.uptime,
        bandwidth: head.bandwidth,
        hibernating: head.hibernating,
        onion_key: decode_if(alloc, text, head.onion_key)?,
        signing_key,
        ntor_onion_key: head.ntor_onion_key,
        or_addresses: texts_of(alloc, text, kept.addresses.as_slice())?,
        policy: kept.policy,
        ipv6_policy: ports_if(alloc, text, head.ipv6_policy)?,
        family: words_if(alloc, text, head.family)?,
        tunnelled_dir_server: head.tunnelled_dir_server,
        proto: copy_part_if(alloc, text, head.proto)?,
        contact: copy_part_if(alloc, text, head.contact)?,
        router_sig_ed25519: ed_signature_of(text, &head),
        router_signature: decode_part(alloc, text, head.router_signature)?,
        identity,
        digest: Digest1(Sha1::digest(between(text, head.begin, head.signed_end))),
        text: shared_between(bytes, head.begin, head.end)?,
        family_certs: Some(Seq::new(Vec::new(alloc))),
    })
}
