// What was measured of relays, found by their identities.
ghost use Rattle.std.specs.Prelude.{◌≡◌, IfOk};
ghost use Rattle.vote_maker.specs.Private.{MeasureAlike, MeasuresAscend, measure_order};
ghost use Rattle.vote_maker.specs.Relays as relay_terms;

use dir_bytes::Memory;
use dir_values::Fingerprint;
use flag_rules::Measured;
use station_input::MeasuredRelay;
use std::alloc::Global;
use std::cmp::Ordering;
use std::marker::Model;

/// What was measured of relays. Contracts see it as the list of them, ascending by identity.
#[derive(Drop)]
pub(crate) struct Measures {
    relays: Vec<MeasuredRelay>,
}

impl Model for Measures {
    ghost use Rattle.std.specs.Prelude.{List};
    ghost use Rattle.station_input.specs.declared.frame_said.MeasuredRelay.{MeasuredRelay};
    ghost use Rattle.vote_maker.specs.Private.{MeasuresAscend};

    ghost Value = { List MeasuredRelay };

    ghost view = { λ s. s.relays.items };

    ghost invariant = { λ s. MeasuresAscend s.relays.items };
}

impl Measures {
    /// What was measured of relays: where two are of one relay, the first.
    ///
    /// # Errors
    /// `Memory` is want of memory.
    pub(crate) fn new(alloc: Global, relays: &[MeasuredRelay]) -> Result<Measures, Memory>
        ensures { IfOk result (λ measures. MeasureAlike relays.now measures) }
    {
        let mut relays = relays.to_vec(alloc)?;
        relays.sort_by(|a, b| order(a, b))?;
        Ok(Measures { relays })
    }

    /// What was measured of the relay with an identity. It is found by halves.
    pub(crate) fn measured(&self, identity: &Fingerprint) -> Measured
        ensures { result ≡ relay_terms.measured_for self.now identity.now }
    {
        measured_for(&self.relays, identity)
    }
}

/// What was measured of the relay with an identity, of relays that ascend.
fn measured_for(relays: &[MeasuredRelay], identity: &Fingerprint) -> Measured
    requires { MeasuresAscend relays.now }
    ensures { result ≡ relay_terms.measured_for relays.now identity.now }
{
    let place = relays.partition_point(|relay| relay.identity.is_below(identity));
    match relays.get(place) {
        Some(relay) => {
            if relay.identity.is_same(identity) {
                relay.measured
            } else {
                unmeasured()
            }
        }
        None => unmeasured(),
    }
}

/// How two measured relays stand by identity.
fn order(a: &MeasuredRelay, b: &MeasuredRelay) -> Ordering
    ensures { result ≡ measure_order a.now b.now }
{
    a.identity.0.as_slice().cmp(b.identity.0.as_slice())
}

/// What is known of a relay that was not measured.
fn unmeasured() -> Measured
    ensures { result ≡ relay_terms.unmeasured_relay }
{
    Measured {
        reached_at: 0,
        wmtbf: 0,
        wfu_ppm: 0,
        known_for: 0,
        kb: None,
    }
}
