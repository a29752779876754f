// Which relays of an address are too many.
ghost use Rattle.std.specs.Prelude.{◌≡◌, nat_le, IfOk};
ghost use Rattle.flag_rules.specs.{Limits.most_at_address, Private.{order_of, is_before, AreInOrder}};
ghost use Rattle.flag_rules.specs.Private.{AreReachedInOrder, StandsAmong};
ghost use Rattle.flag_rules.specs.Standings as standings;

use crate::limits::MOST_AT_ADDRESS;
use crate::relay::RuledRelay;
use crate::standing::{Standing, is_reached};
use dir_bytes::Memory;
use std::alloc::Global;
use std::cmp::Ordering;

/// How two relays stand by address, then by the greater bandwidth, then by the smaller identity.
fn order(a: &RuledRelay, b: &RuledRelay) -> Ordering
    ensures { result ≡ order_of a.now b.now }
{
    a.facts
        .ip
        .cmp(&b.facts.ip)
        .then(b.facts.bandwidth().cmp(&a.facts.bandwidth()))
        .then(
            a.facts
                .identity
                .0
                .as_slice()
                .cmp(b.facts.identity.0.as_slice()),
        )
}

/// Whether a relay comes before another in this order.
fn is_earlier(a: &RuledRelay, b: &RuledRelay) -> bool
    ensures { result ≡ is_before a.now b.now }
{
    order(a, b).is_lt()
}

/// The relays that are reached.
fn reached(alloc: Global, now: u64, relays: &[RuledRelay]) -> Result<Vec<RuledRelay>, Memory>
    ensures { IfOk result (λ reached. reached.items ≡ standings.reached_relays now relays.now) }
{
    let reached: Vec<RuledRelay> = relays
        .iter()
        .copied()
        .filter(|relay| is_reached(now, &relay.facts, relay.ruling))
        .collect(alloc)?;
    Ok(reached)
}

/// The relays that are reached, in this order.
fn reached_in_order(
    alloc: Global,
    now: u64,
    relays: &[RuledRelay],
) -> Result<Vec<RuledRelay>, Memory>
    ensures { IfOk result (λ in_order. AreReachedInOrder now relays.now in_order.items) }
{
    let mut in_order = reached(alloc, now, relays)?;
    in_order.sort_unstable_by(|a, b| order(a, b));
    Ok(in_order)
}

/// Whether at least two of some relays in order are ahead of a relay.
fn is_one_too_many(in_order: &[RuledRelay], relay: &RuledRelay) -> bool
    requires { AreInOrder in_order.now }
    ensures { result ≡ nat_le most_at_address (standings.count_ahead in_order.now relay.now.facts) }
{
    let place = in_order.partition_point(|other| is_earlier(other, relay));
    place >= MOST_AT_ADDRESS && in_order[place - MOST_AT_ADDRESS].facts.ip == relay.facts.ip
}

/// A relay among others, of which those that are reached stand in order.
fn standing_of(now: u64, in_order: &[RuledRelay], relay: &RuledRelay) -> Standing
    requires { AreInOrder in_order.now }
    ensures { StandsAmong now in_order.now relay.now result }
{
    Standing {
        facts: relay.facts,
        ruling: relay.ruling,
        sybil: is_reached(now, &relay.facts, relay.ruling) && is_one_too_many(in_order, relay),
    }
}

/// The relays among each other.
pub(crate) fn standings(
    alloc: Global,
    now: u64,
    relays: &[RuledRelay],
) -> Result<Vec<Standing>, Memory>
    ensures { IfOk result (λ them. them.items ≡ standings.standings_of now relays.now) }
{
    let in_order = reached_in_order(alloc, now, relays)?;
    let mut standings = Vec::with_capacity(alloc, relays.len())?;
    for relay in relays {
        standings.push(standing_of(now, &in_order, relay))?;
    }
    Ok(standings)
}
