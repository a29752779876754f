// The entry of a relay.
ghost use Rattle.std.specs.Prelude.{◌≡◌, IfOk, [], ◌∷◌};
ghost use Rattle.dir_values.specs.Ports.{summary_text};
ghost use Rattle.vote_maker.specs.Entries as entries;
ghost use Rattle.vote_maker.specs.Private as walks;

use crate::address::made_addresses;
use crate::copies::{copy, copy_if};
use crate::version::version_of;
use count_terms::Newest;
use dir_bytes::{Memory, Seq, Text};
use dir_values::{Digest2, PortSummary};
use flag_rules::{Flags, RelayFacts};
use key_port::Verifier;
use relay_entries::{Bandwidths, EdOpinion};
use std::alloc::Global;
use vote_pool::PoolEntry;
use vote_terms::{EntryFacts, MicroFacts};

const TO_METHOD_33: [u32; 2] = [32, 33];

const TO_METHOD_34: [u32; 3] = [32, 33, 34];

const TO_METHOD_35: [u32; 4] = [32, 33, 34, 35];

const METHOD_35: [u32; 1] = [35];

/// Whether 34 is one of the methods up to this one.
pub(crate) fn knows_34(newest: Newest) -> bool
    ensures { result ≡ entries.knows_34 newest }
{
    match newest {
        Newest::Method33 => false,
        Newest::Method34 => true,
        Newest::Method35 => true,
    }
}

/// The consensus methods from 32 up to the newest that is known.
fn methods_to(newest: Newest) -> &'static [u32]
    ensures { result.now ≡ entries.made_methods newest }
{
    match newest {
        Newest::Method33 => &TO_METHOD_33,
        Newest::Method34 => &TO_METHOD_34,
        Newest::Method35 => &TO_METHOD_35,
    }
}

/// A list of methods.
///
/// # Errors
/// `Memory` is want of memory.
fn copy_of(alloc: Global, methods: &[u32]) -> Result<Seq<u32>, Memory>
    ensures { IfOk result (λ copy. copy ≡ methods.now) }
{
    Ok(Seq::new(Vec::from_slice(alloc, methods)?))
}

/// The consensus methods that the vote lists.
///
/// # Errors
/// `Memory` is want of memory.
pub(crate) fn made_methods(alloc: Global, newest: Newest) -> Result<Seq<u32>, Memory>
    ensures { IfOk result (λ methods. methods ≡ entries.made_methods newest) }
{
    copy_of(alloc, methods_to(newest))
}

/// The text of a summary of ports.
fn policy_text(alloc: Global, summary: &PortSummary) -> Result<Text, Memory>
    ensures { IfOk result (λ text. text ≡ summary_text summary.now) }
{
    let mut text = Vec::new(alloc);
    summary.push(&mut text)?;
    Ok(Text::new(text))
}

/// The `m` line of the microdescriptor with this digest, under these methods.
///
/// # Errors
/// `Memory` is want of memory.
fn micro_line(alloc: Global, methods: &[u32], digest: &Digest2) -> Result<MicroFacts, Memory>
    ensures { IfOk result (λ line. line ≡ entries.micro_of_digest methods.now digest.now) }
{
    Ok(MicroFacts {
        methods: copy_of(alloc, methods)?,
        digest: *digest,
    })
}

/// This line alone.
///
/// # Errors
/// `Memory` is want of memory.
fn one_micro(alloc: Global, methods: &[u32], digest: &Digest2) -> Result<Seq<MicroFacts>, Memory>
    ensures { IfOk result (λ lines. lines ≡ entries.micro_of_digest methods.now digest.now ∷ []) }
{
    let mut lines = Vec::with_capacity(alloc, 1)?;
    lines.push(micro_line(alloc, methods, digest)?)?;
    Ok(Seq::new(lines))
}

/// The `m` lines of a relay whose microdescriptors, by the methods before 35 and by 35, have these digests.
///
/// # Errors
/// `Memory` is want of memory.
fn both_micros(alloc: Global, digest: &Digest2, family: &Digest2) -> Result<Seq<MicroFacts>, Memory>
    ensures { IfOk result (λ lines. lines ≡ entries.both_micros digest.now family.now) }
{
    if digest.0 == family.0 {
        return one_micro(alloc, methods_to(Newest::Method35), digest);
    }
    let mut lines = Vec::with_capacity(alloc, 2)?;
    lines.push(micro_line(alloc, methods_to(Newest::Method34), digest)?)?;
    lines.push(micro_line(alloc, &METHOD_35, family)?)?;
    Ok(Seq::new(lines))
}

/// The `m` lines of such a relay, by the newest method that is known.
///
/// # Errors
/// `Memory` is want of memory.
fn micro_lines(
    alloc: Global,
    newest: Newest,
    digest: &Digest2,
    family: &Digest2,
) -> Result<Seq<MicroFacts>, Memory>
    ensures { IfOk result (λ lines. lines ≡ entries.micros_of newest digest.now family.now) }
{
    match newest {
        Newest::Method33 => one_micro(alloc, methods_to(Newest::Method33), digest),
        Newest::Method34 => one_micro(alloc, methods_to(Newest::Method34), digest),
        Newest::Method35 => both_micros(alloc, digest, family),
    }
}

/// The `m` lines of a relay with an RSA onion key or without.
///
/// # Errors
/// `Memory` is want of memory.
fn made_micros(
    alloc: Global,
    newest: Newest,
    has_key: bool,
    digest: &Digest2,
    family: &Digest2,
) -> Result<Seq<MicroFacts>, Memory>
    ensures { IfOk result (λ lines. lines ≡ entries.made_micros newest has_key digest.now family.now) }
{
    if knows_34(newest) && !has_key {
        Ok(Seq::new(Vec::new(alloc)))
    } else {
        micro_lines(alloc, newest, digest, family)
    }
}

/// The Ed25519 identity, where there is one.
fn opinion_of(key: &Option<[u8; 32]>) -> EdOpinion
    ensures { result ≡ walks.opinion_of_key key.now }
{
    match key {
        Some(key) => EdOpinion::Key(*key),
        None => EdOpinion::None,
    }
}

/// What the relay says of its bandwidth, and what was measured.
fn bandwidths_of(known: &RelayFacts) -> Bandwidths
    ensures { result ≡ entries.made_bandwidths known.now }
{
    Bandwidths {
        bandwidth: Some(known.bandwidth_kb),
        measured: known.measured.kb,
    }
}

/// The entry of a relay of which this is known, with these flags, by the newest method that is known.
///
/// # Errors
/// `Memory` is want of memory.
#[tactic(auto, using(crate::proofs::Signers::opinion_by_key))]
pub(crate) fn made_entry<V: Verifier>(
    alloc: Global,
    newest: Newest,
    entry: &PoolEntry<V>,
    known: &RelayFacts,
    flags: &Flags,
) -> Result<EntryFacts, Memory>
    ensures { IfOk result (λ made. made ≡ entries.made_entry newest entry.now known.now flags.now) }
{
    let descriptor = entry.descriptor();
    Ok(EntryFacts {
        nickname: copy(alloc, &descriptor.router.nickname)?,
        identity: descriptor.identity,
        digest: descriptor.digest,
        published: descriptor.published,
        ip: descriptor.router.ip,
        or_port: descriptor.router.or_port,
        dir_port: descriptor.router.dir_port,
        addresses: made_addresses(alloc, newest, descriptor.or_addresses.as_slice())?,
        flags: flags.names(alloc)?,
        version: version_of(alloc, &descriptor.platform)?,
        protocols: copy_if(alloc, &descriptor.proto)?,
        bandwidths: Some(bandwidths_of(known)),
        policy: Some(policy_text(alloc, entry.summary())?),
        micros: made_micros(
            alloc,
            newest,
            descriptor.has_onion_key,
            entry.micro_digest(),
            entry.family_digest(),
        )?,
        ed: opinion_of(&descriptor.ed_key),
    })
}
