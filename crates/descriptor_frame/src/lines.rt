// What the items of a server descriptor say.
ghost use Rattle.std.specs.Prelude.{◌≡◌, IfOk};
ghost use Rattle.dirdoc_grammar.specs.Seen.{seen_item, seen_object_if, IsInside};
ghost use Rattle.frame_reader.specs.Giving.{Gives};
ghost use Rattle.frame_values.specs.Faults as faults;
ghost use Rattle.descriptor_frame.specs.Fields as fields;
ghost use Rattle.descriptor_frame.specs.Lines as lines;
ghost use Rattle.exit_summary.specs.PolicyItems as policies;

use crate::certificate::is_certificate;
use crate::fields::{address, groups_of, hibernating, key, long_number, padded_key, signature};
use crate::said::{BandwidthLine, RouterLine};
use dir_values::{Fingerprint, PolicyItem, PortSummary, ValueRefusal, port_of};
use dirdoc_grammar::Item;
use exit_summary::item_of;
use frame_reader::given;
use frame_terms::ReadRefusal;
use frame_values::{
    Span, arguments_of, at_place, field, has_words, ip, nickname, object_of, rest_of, take_argument,
};
use std::alloc::{AllocError, Global};

/// A relay.
pub(crate) fn router_of(item: &Item<'_>) -> Result<RouterLine, u64>
    requires { IsInside item.now }
    ensures { result ≡ lines.router_of (seen_item item.now) }
{
    let mut arguments = arguments_of(item);
    let name = take_argument(&mut arguments, item.place);
    let address = take_argument(&mut arguments, item.place);
    let or_port = take_argument(&mut arguments, item.place);
    let socks_port = take_argument(&mut arguments, item.place);
    let dir_port = take_argument(&mut arguments, item.place);
    let nickname = field(&name, nickname(&name))?;
    let number = field(&address, ip(address.text))?;
    let or_number = field(&or_port, port_of(or_port.text))?;
    let socks_number = field(&socks_port, port_of(socks_port.text))?;
    let dir_number = field(&dir_port, port_of(dir_port.text))?;
    Ok(RouterLine {
        nickname,
        ip: number,
        or_port: or_number,
        socks_port: socks_number,
        dir_port: dir_number,
    })
}

/// Whether the item's object is an Ed25519 certificate.
fn holds_certificate(alloc: Global, item: &Item<'_>) -> Result<bool, AllocError>
    ensures { IfOk result (λ is. is ≡ lines.is_certificate (seen_object_if item.now.object)) }
{
    match item.object {
        Some(object) => {
            let bytes = object.decode(alloc)?;
            Ok(is_certificate(&bytes))
        }
        None => Ok(false),
    }
}

/// Where the lines of an Ed25519 certificate stand.
pub(crate) fn certificate_lines(alloc: Global, item: &Item<'_>) -> Result<Span, ReadRefusal>
    requires { IsInside item.now }
    ensures { Gives (faults.at_place (lines.certificate_lines (seen_item item.now))) result }
{
    let is_wanted = has_words(item, b"ED25519 CERT") && holds_certificate(alloc, item)?;
    given(at_place(object_of(is_wanted, item)))
}

/// A key of 32 bytes in base64.
///
/// # Errors
/// The place of what is wrong.
pub fn key_of(item: &Item<'_>) -> Result<[u8; 32], u64>
    requires { IsInside item.now }
    ensures { result ≡ lines.first_of fields.key (seen_item item.now) }
{
    let first = take_argument(&mut arguments_of(item), item.place);
    field(&first, key(first.text))
}

/// A key with or without padding.
pub(crate) fn padded_key_of(item: &Item<'_>) -> Result<[u8; 32], u64>
    requires { IsInside item.now }
    ensures { result ≡ lines.first_of fields.padded_key (seen_item item.now) }
{
    let first = take_argument(&mut arguments_of(item), item.place);
    field(&first, padded_key(first.text))
}

/// An Ed25519 signature.
pub(crate) fn ed_signature_of(item: &Item<'_>) -> Result<[u8; 64], u64>
    requires { IsInside item.now }
    ensures { result ≡ lines.first_of fields.signature (seen_item item.now) }
{
    let first = take_argument(&mut arguments_of(item), item.place);
    field(&first, signature(first.text))
}

/// An identity in ten groups of four hex digits.
pub(crate) fn identity_of(item: &Item<'_>) -> Result<Fingerprint, u64>
    requires { IsInside item.now }
    ensures { result ≡ lines.identity_of (seen_item item.now) }
{
    Ok(Fingerprint(groups_of(&mut arguments_of(item), item.place)?))
}

/// A number of seconds.
pub(crate) fn uptime_of(item: &Item<'_>) -> Result<u64, u64>
    requires { IsInside item.now }
    ensures { result ≡ lines.first_of fields.long_number (seen_item item.now) }
{
    let first = take_argument(&mut arguments_of(item), item.place);
    field(&first, long_number(first.text))
}

/// Three numbers of bytes a second.
pub(crate) fn bandwidth_of(item: &Item<'_>) -> Result<BandwidthLine, u64>
    requires { IsInside item.now }
    ensures { result ≡ lines.bandwidth_of (seen_item item.now) }
{
    let mut arguments = arguments_of(item);
    let average = take_argument(&mut arguments, item.place);
    let burst = take_argument(&mut arguments, item.place);
    let observed = take_argument(&mut arguments, item.place);
    let average_number = field(&average, long_number(average.text))?;
    let burst_number = field(&burst, long_number(burst.text))?;
    let observed_number = field(&observed, long_number(observed.text))?;
    Ok(BandwidthLine {
        average: average_number,
        burst: burst_number,
        observed: observed_number,
    })
}

/// Whether a relay rests.
pub(crate) fn hibernating_of(item: &Item<'_>) -> Result<bool, u64>
    requires { IsInside item.now }
    ensures { result ≡ lines.first_of fields.hibernating (seen_item item.now) }
{
    let first = take_argument(&mut arguments_of(item), item.place);
    field(&first, hibernating(first.text))
}

/// An item of an exit policy.
pub(crate) fn policy_of(accept: bool, item: &Item<'_>) -> Result<PolicyItem, u64>
    requires { IsInside item.now }
    ensures { result ≡ lines.first_of (policies.item_of accept) (seen_item item.now) }
{
    let first = take_argument(&mut arguments_of(item), item.place);
    field(&first, item_of(accept, first.text))
}

/// Where a summary of ports stands.
///
/// # Errors
/// `Frame` is the fault at the place of what is wrong. `Memory` is want of memory.
pub fn ports_of(alloc: Global, item: &Item<'_>) -> Result<Span, ReadRefusal>
    requires { IsInside item.now }
    ensures { Gives (faults.at_place (lines.ports_of (seen_item item.now))) result }
{
    let place = match PortSummary::read(alloc, item.arguments) {
        Ok(_) => return Ok(rest_of(item)),
        Err(ValueRefusal::Memory) => return Err(ReadRefusal::Memory),
        Err(ValueRefusal::BadValue { place }) => place,
    };
    let wrong = if place < item.arguments.len() as u64 {
        item.start + place
    } else {
        item.place
    };
    given(at_place(Err(wrong)))
}

/// Where an address stands that ends with a colon and a port.
pub(crate) fn address_of(item: &Item<'_>) -> Result<Span, u64>
    requires { IsInside item.now }
    ensures { result ≡ lines.address_of (seen_item item.now) }
{
    let first = take_argument(&mut arguments_of(item), item.place);
    field(&first, address(&first))
}
