// What the items of a descriptor say. Where an item is not there, or says something else, its value is nothing.
ghost use Rattle.std.specs.Prelude.{◌≡◌, ◌++◌, IfSome, IsTrue, OnErr, OnOk, filter_map, length, take};
ghost use Rattle.exit_summary.specs.Policies.{is_net};
ghost use Rattle.frame_values.specs.Values.{item_at};
ghost use Rattle.descriptor_doc.specs.Saying as saying;

use descriptor_frame::{BandwidthLine, DescriptorValue, RouterLine};
use dir_bytes::Seq;
use dir_values::{Fingerprint, PolicyItem};
use exit_summary::{Policy, has_net_bits};
use frame_terms::{Keyword, Taken};
use frame_values::{Span, Value, item_at, nowhere, own_at, value_at};
use std::alloc::AllocError;

/// A relay of which nothing is known.
pub(crate) fn no_router() -> RouterLine
    ensures { result ≡ saying.no_router }
{
    RouterLine {
        nickname: nowhere(),
        ip: 0,
        or_port: 0,
        socks_port: 0,
        dir_port: 0,
    }
}

/// The relay.
pub(crate) fn router_at(taken: &[Taken<Value<DescriptorValue>>]) -> RouterLine
    ensures { result ≡ saying.router_in (item_at taken.now Keyword.Router) }
{
    match own_at(taken, Keyword::Router) {
        Some(DescriptorValue::Router(router)) => router,
        _ => no_router(),
    }
}

/// The key that the first item of a keyword says, where there is one.
pub(crate) fn key_at(taken: &[Taken<Value<DescriptorValue>>], keyword: Keyword) -> Option<[u8; 32]>
    ensures { result ≡ saying.key_in (item_at taken.now keyword) }
{
    match own_at(taken, keyword) {
        Some(DescriptorValue::Key(key)) => Some(key),
        _ => None,
    }
}

/// The seconds for which the relay runs, where they are said.
pub(crate) fn uptime_at(taken: &[Taken<Value<DescriptorValue>>]) -> Option<u64>
    ensures { result ≡ saying.uptime_in (item_at taken.now Keyword.Uptime) }
{
    match own_at(taken, Keyword::Uptime) {
        Some(DescriptorValue::Uptime(seconds)) => Some(seconds),
        _ => None,
    }
}

/// No bandwidth.
pub(crate) fn no_bandwidth() -> BandwidthLine
    ensures { result ≡ saying.no_bandwidth }
{
    BandwidthLine {
        average: 0,
        burst: 0,
        observed: 0,
    }
}

/// What the relay can carry.
pub(crate) fn bandwidth_at(taken: &[Taken<Value<DescriptorValue>>]) -> BandwidthLine
    ensures { result ≡ saying.bandwidth_in (item_at taken.now Keyword.Bandwidth) }
{
    match own_at(taken, Keyword::Bandwidth) {
        Some(DescriptorValue::Bandwidth(bandwidth)) => bandwidth,
        _ => no_bandwidth(),
    }
}

/// Whether the relay rests, where it is said.
pub(crate) fn hibernating_at(taken: &[Taken<Value<DescriptorValue>>]) -> Option<bool>
    ensures { result ≡ saying.hibernating_in (item_at taken.now Keyword.Hibernating) }
{
    match own_at(taken, Keyword::Hibernating) {
        Some(DescriptorValue::Hibernating(rests)) => Some(rests),
        _ => None,
    }
}

/// The Ed25519 signature, where there is one.
pub(crate) fn ed_signature_at(taken: &[Taken<Value<DescriptorValue>>]) -> Option<[u8; 64]>
    ensures { result ≡ saying.ed_signature_in (item_at taken.now Keyword.RouterSigEd25519) }
{
    match own_at(taken, Keyword::RouterSigEd25519) {
        Some(DescriptorValue::EdSignature(signature)) => Some(signature),
        _ => None,
    }
}

/// Where the lines of the object of the first item of a keyword stand, where there is one.
pub(crate) fn object_if(taken: &[Taken<Value<DescriptorValue>>], keyword: Keyword) -> Option<Span>
    ensures { result ≡ saying.object_if (item_at taken.now keyword) }
{
    match value_at(taken, keyword) {
        Value::Object(lines) => Some(lines),
        _ => None,
    }
}

/// The identity that the first item of a keyword says, where there is one.
pub(crate) fn fingerprint_if(
    taken: &[Taken<Value<DescriptorValue>>],
    keyword: Keyword,
) -> Option<Fingerprint>
    ensures { result ≡ saying.fingerprint_if (item_at taken.now keyword) }
{
    match value_at(taken, keyword) {
        Value::Fingerprint(identity) => Some(identity),
        _ => None,
    }
}

/// Whether there is an item of a keyword.
pub(crate) fn has_item(taken: &[Taken<Value<DescriptorValue>>], keyword: Keyword) -> bool
    ensures { result ≡ saying.is_there (item_at taken.now keyword) }
{
    item_at(taken, keyword).is_some()
}

/// The item of the exit policy, if this one says it.
fn policy_if(one: &Taken<Value<DescriptorValue>>) -> Option<PolicyItem>
    ensures item { result ≡ saying.policy_if one.now }
    ensures net { IfSome result (λ item. IsTrue (is_net item.net)) }
{
    match one.value {
        Value::Own(DescriptorValue::Policy(item)) => {
            if has_net_bits(item.net) {
                Some(item)
            } else {
                None
            }
        }
        _ => None,
    }
}

/// Appends the items of the exit policy.
///
/// # Errors
/// There was no memory.
pub(crate) fn push_policy(
    out: &mut Policy,
    taken: &[Taken<Value<DescriptorValue>>],
) -> Result<(), AllocError>
    ensures ok { OnOk result (out.new ≡ out.old ++ filter_map saying.policy_if taken.now) }
    ensures err { OnErr result (take (length out.old) out.new ≡ out.old) }
{
    for one in taken {
        if let Some(item) = policy_if(one) {
            out.push(item)?;
        }
    }
    Ok(())
}

/// Where the address stands, if this item says one.
fn address_if(one: &Taken<Value<DescriptorValue>>) -> Option<Span>
    ensures { result ≡ saying.address_if one.now }
{
    if !one.keyword.same(Keyword::OrAddress) {
        return None;
    }
    match one.value {
        Value::Text(span) => Some(span),
        _ => None,
    }
}

/// Appends where the further addresses stand.
///
/// # Errors
/// There was no memory.
pub(crate) fn push_addresses(
    out: &mut Seq<Span>,
    taken: &[Taken<Value<DescriptorValue>>],
) -> Result<(), AllocError>
    ensures ok { OnOk result (out.new ≡ out.old ++ filter_map saying.address_if taken.now) }
    ensures err { OnErr result (take (length out.old) out.new ≡ out.old) }
{
    for one in taken {
        if let Some(span) = address_if(one) {
            out.push(span)?;
        }
    }
    Ok(())
}
