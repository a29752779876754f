// What the active relays ask of the others.
ghost use Rattle.std.specs.{Prelude.{◌≡◌, IfOk}, List.Sorted.IsPermutation};
ghost use Rattle.flag_rules.specs.Flags as flags;

use crate::ascending::Ascending;
use crate::limits::FAMILIAR_SECONDS;
use crate::standing::Standing;
use dir_bytes::Memory;
use std::alloc::Global;

/// What the active relays ask of a stable, a fast and a guard relay.
#[derive(Clone, Copy, Debug)]
pub struct Thresholds {
    pub stable_wmtbf: u64,
    pub fast_kb: u64,
    pub guard_kb: u64,
    pub guard_wfu_ppm: u64,
}

/// What some active relays ask.
pub(crate) fn thresholds_of(alloc: Global, active: &[Standing]) -> Result<Thresholds, Memory>
    ensures { IfOk result (λ thresholds. thresholds ≡ flags.thresholds_of active.now) }
{
    let failure_times = failure_times(alloc, active)?;
    let bandwidths = bandwidths(alloc, active)?;
    let familiar = familiar(alloc, active)?;
    let fractional_uptimes = fractional_uptimes(alloc, &familiar)?;
    Ok(Thresholds {
        stable_wmtbf: failure_times.low_median(),
        fast_kb: bandwidths.eighth(1),
        guard_kb: bandwidths.eighth(6),
        guard_wfu_ppm: fractional_uptimes.low_median(),
    })
}

/// Their mean times between failures.
fn failure_times(alloc: Global, relays: &[Standing]) -> Result<Ascending, Memory>
    ensures { IfOk result (λ times. IsPermutation (flags.failure_times relays.now) times) }
{
    let times: Vec<u64> = relays
        .iter()
        .map(|relay| relay.facts.measured.wmtbf)
        .collect(alloc)?;
    Ok(Ascending::new(times))
}

/// Their fractional uptimes.
fn fractional_uptimes(alloc: Global, relays: &[Standing]) -> Result<Ascending, Memory>
    ensures { IfOk result (λ uptimes. IsPermutation (flags.fractional_uptimes relays.now) uptimes) }
{
    let uptimes: Vec<u64> = relays
        .iter()
        .map(|relay| u64::from(relay.facts.measured.wfu_ppm))
        .collect(alloc)?;
    Ok(Ascending::new(uptimes))
}

/// Their bandwidths.
fn bandwidths(alloc: Global, relays: &[Standing]) -> Result<Ascending, Memory>
    ensures { IfOk result (λ bandwidths. IsPermutation (flags.bandwidths relays.now) bandwidths) }
{
    let bandwidths: Vec<u64> = relays
        .iter()
        .map(|relay| u64::from(relay.facts.bandwidth()))
        .collect(alloc)?;
    Ok(Ascending::new(bandwidths))
}

/// For how long they are known.
fn known_times(alloc: Global, relays: &[Standing]) -> Result<Ascending, Memory>
    ensures { IfOk result (λ times. IsPermutation (flags.known_times relays.now) times) }
{
    let times: Vec<u64> = relays
        .iter()
        .map(|relay| relay.facts.measured.known_for)
        .collect(alloc)?;
    Ok(Ascending::new(times))
}

/// Whether a relay is known for so long, or for eight days.
fn is_familiar(least: u64, relay: &Standing) -> bool
    ensures { result ≡ flags.is_familiar least relay.now }
{
    let known_for = relay.facts.measured.known_for;
    known_for >= least || known_for >= FAMILIAR_SECONDS
}

/// The familiar ones of the active relays.
fn familiar(alloc: Global, active: &[Standing]) -> Result<Vec<Standing>, Memory>
    ensures { IfOk result (λ familiar. familiar.items ≡ flags.familiar_relays active.now) }
{
    let least = known_times(alloc, active)?.eighth(1);
    let familiar: Vec<Standing> = active
        .iter()
        .copied()
        .filter(|relay| is_familiar(least, relay))
        .collect(alloc)?;
    Ok(familiar)
}
