// Making a microdescriptor of a server descriptor.
ghost use Rattle.std.specs.Prelude.{◌≡◌, IfOk, option_and_then};
ghost use Rattle.micro_desc.specs.Makings as makings;

use crate::families::ids_of;
use crate::micro::Micro;
use crate::said::MicroId;
use descriptor_doc::{Descriptor, EdCert};
use descriptor_frame::canonical_family;
use dir_bytes::{Memory, Seq, Text};
use dir_values::{Fingerprint, PortRange, PortSummary};
use std::alloc::Global;

/// A copy of a text, where there is one.
///
/// # Errors
/// `Memory` is want of memory.
fn copy_if(alloc: Global, text: &Option<Text>) -> Result<Option<Text>, Memory>
    ensures { IfOk result (λ copy. copy ≡ text.now) }
{
    match text {
        Some(text) => Ok(Some(Text::copy_of(alloc, text.as_bytes())?)),
        None => Ok(None),
    }
}

/// The canonical family that some names make, where one is left.
///
/// # Errors
/// `Memory` is want of memory.
fn family_if(alloc: Global, names: &Option<Seq<Text>>) -> Result<Option<Seq<Text>>, Memory>
    ensures { IfOk result (λ family. family ≡ option_and_then makings.family_if names.now) }
{
    let Some(names) = names else {
        return Ok(None);
    };
    let family = canonical_family(alloc, names.as_slice())?;
    if family.is_empty() {
        Ok(None)
    } else {
        Ok(Some(family))
    }
}

/// Whether ranges are every port, as one range.
fn is_every_port(ranges: &[PortRange]) -> bool
    ensures { result ≡ makings.is_every_port ranges.now }
{
    match ranges {
        [range] => range.low == 1 && range.high == 65_535,
        _ => false,
    }
}

/// Whether a summary is `reject 1-65535`.
fn rejects_all(ports: &PortSummary) -> bool
    ensures { result ≡ makings.rejects_all ports.now }
{
    !ports.accept() && is_every_port(ports.ranges())
}

/// The text of a summary, unless it rejects all ports.
///
/// # Errors
/// `Memory` is want of memory.
fn summary_if(alloc: Global, ports: &PortSummary) -> Result<Option<Text>, Memory>
    ensures { IfOk result (λ text. text ≡ makings.summary_if ports.now) }
{
    if rejects_all(ports) {
        return Ok(None);
    }
    let mut text = Vec::new(alloc);
    ports.push(&mut text)?;
    Ok(Some(Text::new(text)))
}

/// The text of a summary, where there is one, unless it rejects all ports.
///
/// # Errors
/// `Memory` is want of memory.
fn ipv6_summary(alloc: Global, ports: &Option<PortSummary>) -> Result<Option<Text>, Memory>
    ensures { IfOk result (λ text. text ≡ option_and_then makings.summary_if ports.now) }
{
    match ports {
        Some(ports) => summary_if(alloc, ports),
        None => Ok(None),
    }
}

/// Whose microdescriptor it is: the signer of the Ed25519 certificate, or else the RSA identity.
fn made_id(certificate: &Option<EdCert>, identity: Fingerprint) -> MicroId
    ensures { result ≡ makings.made_id certificate.now identity }
{
    match certificate {
        Some(certificate) => MicroId::Ed25519(certificate.signer),
        None => MicroId::Rsa1024(identity),
    }
}

/// The microdescriptor of a relay with this server descriptor and this summary of its exit policy, by the consensus methods
/// before 35 (dir-spec, "Computing microdescriptors"): the descriptor's onion keys; its family in canonical form, where a name
/// is left; the summary and the descriptor's summary for IPv6, each unless it rejects all ports; and the signer of its Ed25519
/// certificate, or else its RSA identity.
///
/// # Errors
/// `Memory` is want of memory.
pub fn make(alloc: Global, descriptor: &Descriptor, summary: &PortSummary) -> Result<Micro, Memory>
    ensures { IfOk result (λ micro. micro ≡ makings.micro_of_descriptor descriptor.now summary.now) }
{
    Ok(Micro {
        onion_key: copy_if(alloc, &descriptor.onion_key)?,
        ntor_onion_key: descriptor.ntor_onion_key,
        family: family_if(alloc, &descriptor.family)?,
        family_ids: None,
        p: summary_if(alloc, summary)?,
        p6: ipv6_summary(alloc, &descriptor.ipv6_policy)?,
        id: Some(made_id(&descriptor.identity_ed25519, descriptor.identity)),
    })
}

/// The same by method 35, where it is another: with the line `family-ids`, where the relay's family certificates name a family.
/// That these hold is for whoever checks a descriptor.
///
/// # Errors
/// `Memory` is want of memory.
pub fn make_with_families(
    alloc: Global,
    descriptor: &Descriptor,
    summary: &PortSummary,
) -> Result<Option<Micro>, Memory>
    ensures { IfOk result (λ micro. micro ≡ makings.micro_with_families descriptor.now summary.now) }
{
    let Some(ids) = ids_of(alloc, &descriptor.family_certs)? else {
        return Ok(None);
    };
    let mut micro = make(alloc, descriptor, summary)?;
    micro.family_ids = Some(ids);
    Ok(Some(micro))
}
